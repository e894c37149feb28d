// Sets of keywords that are asked, and the flags that stand for them (RFC 8621 section 4.1.1).
ghost use Rattle.std.specs.Prelude.{◌≡◌, ◌++◌, ◌∷◌, [], IfOk, OnOk, map};
ghost use Rattle.serde_json.specs.View.{view, members_view};
ghost use Rattle.mail_maps.specs.Keywords.{has_name};
ghost use Rattle.mail_maps.specs.reading.Sets.{set_items};
ghost use Rattle.set_patches.specs.Patches.{member_keys};
ghost use Rattle.email_checks.specs.Keywords as spec;
ghost use Rattle.email_checks.specs.reading.Sets.{set_keywords};

use octets::{Bytes, Names};
use serde_json::{Map, Value};
use std::alloc::{AllocError, Global};
use std::collections::BTreeSet;

/// The flag of a keyword.
pub fn flag_of(keyword: &[u8]) -> &[u8]
    ensures { result.now ≡ spec.flag_of keyword.now }
{
    if keyword == b"$seen".as_slice() {
        return b"\\seen";
    }
    if keyword == b"$answered".as_slice() {
        return b"\\answered";
    }
    if keyword == b"$flagged".as_slice() {
        return b"\\flagged";
    }
    if keyword == b"$draft".as_slice() {
        return b"\\draft";
    }
    keyword
}

/// The keyword in lower case.
pub(crate) fn lower_case(alloc: Global, keyword: &str) -> Result<Vec<u8>, AllocError>
    ensures { IfOk result (λ key. set_items key ≡ spec.keyword_in keyword.now) }
{
    keyword
        .as_bytes()
        .iter()
        .map(|octet| octet.to_ascii_lowercase())
        .collect(alloc)
}

fn put_keyword(
    alloc: Global,
    keywords: &mut BTreeSet<Vec<u8>>,
    keyword: &str,
) -> Result<(), AllocError>
    ensures { OnOk result (set_keywords keywords.new ≡ spec.with_name (spec.keyword_in keyword.now) (set_keywords keywords.old)) }
{
    keywords.insert(lower_case(alloc, keyword)?)?;
    Ok(())
}

/// The keywords that an object has, as a set.
pub fn keywords_in(
    alloc: Global,
    members: &Map<String, Value>,
) -> Result<BTreeSet<Vec<u8>>, AllocError>
    ensures { IfOk result (λ set. set_keywords set ≡ spec.sorted_names (map spec.keyword_in (member_keys (members_view members.now.entries)))) }
{
    let mut keywords = BTreeSet::new(alloc);
    for (key, _value) in members.iter() {
        put_keyword(alloc, &mut keywords, key.as_str())?;
    }
    Ok(keywords)
}

/// A set of keywords as names.
pub(crate) fn names_of(alloc: Global, keywords: &BTreeSet<Vec<u8>>) -> Result<Names, AllocError>
    ensures { IfOk result (λ names. names ≡ set_keywords keywords.now) }
{
    let mut names = Names::new(alloc);
    for keyword in keywords {
        names.push(Bytes::copy_of(alloc, keyword.as_slice())?)?;
    }
    Ok(names)
}

fn is_held(keywords: &BTreeSet<Vec<u8>>, keyword: &Vec<u8>) -> bool
    ensures { result ≡ has_name (set_items keyword.now) (set_keywords keywords.now) }
{
    keywords.contains(keyword)
}

/// Adds the flag of a keyword that isn't among these.
fn put_missing(
    alloc: Global,
    flags: &mut Names,
    those: &BTreeSet<Vec<u8>>,
    keyword: &Vec<u8>,
) -> Result<(), AllocError>
    ensures { OnOk result (flags.new ≡ flags.old ++ spec.flags_missing (set_items keyword.now ∷ []) (set_keywords those.now)) }
{
    if is_held(those, keyword) {
        return Ok(());
    }
    flags.push(Bytes::copy_of(alloc, flag_of(keyword.as_slice()))?)
}

/// The flags of those keywords that aren't among the others. It costs a look-up each.
pub(crate) fn flags_missing(
    alloc: Global,
    these: &BTreeSet<Vec<u8>>,
    those: &BTreeSet<Vec<u8>>,
) -> Result<Names, AllocError>
    ensures { IfOk result (λ flags. flags ≡ spec.flags_missing (set_keywords these.now) (set_keywords those.now)) }
{
    let mut flags = Names::new(alloc);
    for keyword in these {
        put_missing(alloc, &mut flags, those, keyword)?;
    }
    Ok(flags)
}
