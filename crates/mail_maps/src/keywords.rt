//! Keywords of Emails, from the flags of their messages.
ghost use Rattle.std.specs.Prelude.{◌≡◌, IfOk, OnOk, map, option_to_list};
ghost use Rattle.std.specs.Option.{option_map};
ghost use Rattle.std.specs.Cmp.Lexicographic.{slice_cmp};
ghost use Rattle.std.specs.Ordering.{nat_cmp};
ghost use Rattle.mail_maps.specs.Keywords as keywords;
ghost use Rattle.mail_maps.specs.reading.Sets.{set_items};

use octets::{Bytes, Names};
use std::alloc::{AllocError, Global};
use std::collections::BTreeSet;

const BACKSLASH: u8 = b'\\';

/// Whether the name is among these.
pub fn has_name(name: &[u8], names: &Names) -> bool
    ensures { result ≡ keywords.has_name name.now names.now }
{
    names
        .as_slice()
        .iter()
        .any(|other| name == other.as_slice())
}

/// Whether a flag begins with a backslash.
fn is_system(flag: &[u8]) -> bool
    ensures { result ≡ keywords.is_system flag.now }
{
    match flag {
        [] => false,
        [first, ..] => *first == BACKSLASH,
    }
}

/// The keyword that stands for a flag (RFC 8621 section 4.1.1).
pub(crate) fn keyword_of(flag: &[u8]) -> Option<&[u8]>
    ensures { option_to_list (option_map (λ k. k.now) result) ≡ keywords.keyword_of flag.now }
{
    if flag == b"\\seen".as_slice() {
        return Some(b"$seen");
    }
    if flag == b"\\answered".as_slice() {
        return Some(b"$answered");
    }
    if flag == b"\\flagged".as_slice() {
        return Some(b"$flagged");
    }
    if flag == b"\\draft".as_slice() {
        return Some(b"$draft");
    }
    if is_system(flag) {
        return None;
    }
    Some(flag)
}

fn copied(alloc: Global, octets: &[u8]) -> Result<Vec<u8>, AllocError>
    ensures { IfOk result (λ key. set_items key ≡ octets.now) }
{
    octets.to_vec(alloc)
}

/// Puts the keyword of a flag into a set, where there is one.
fn add_keyword(alloc: Global, set: &mut BTreeSet<Vec<u8>>, flag: &[u8]) -> Result<(), AllocError>
    ensures { OnOk result (map set_items set.new.keys ≡ keywords.sorted_into (slice_cmp nat_cmp) (map set_items set.old.keys) (keywords.keyword_of flag.now)) }
{
    match keyword_of(flag) {
        None => Ok(()),
        Some(keyword) => {
            let key = copied(alloc, keyword)?;
            set.insert(key)?;
            Ok(())
        }
    }
}

/// The keywords of flags as a set.
pub fn keyword_set(alloc: Global, flags: &[Bytes]) -> Result<BTreeSet<Vec<u8>>, AllocError>
    ensures { IfOk result (λ set. map set_items set.keys ≡ keywords.keywords_of flags.now) }
{
    let mut set = BTreeSet::new(alloc);
    for flag in flags {
        add_keyword(alloc, &mut set, flag.as_slice())?;
    }
    Ok(set)
}

/// The keywords of flags, sorted by octets, each once.
pub fn keywords_of(alloc: Global, flags: &Names) -> Result<Names, AllocError>
    ensures { IfOk result (λ names. names ≡ keywords.keywords_of flags.now) }
{
    let set = keyword_set(alloc, flags.as_slice())?;
    let mut names = Names::new(alloc);
    for keyword in set {
        names.push(Bytes::from_vec(keyword)?)?;
    }
    Ok(names)
}

/// Whether an Email with these keywords is unread.
pub fn is_unread(names: &Names) -> bool
    ensures { result ≡ keywords.is_unread names.now }
{
    !has_name(b"$seen", names) && !has_name(b"$draft", names)
}
