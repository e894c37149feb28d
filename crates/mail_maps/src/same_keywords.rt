//! Whether names are the keywords of flags, asked without memory where the flags are few.
ghost use Rattle.std.specs.Prelude.{◌≡◌, IfOk};
ghost use Rattle.std.specs.List.{flat_map};
ghost use Rattle.std.specs.Ordering.{nat_cmp, is_lt};
ghost use Rattle.std.specs.Cmp.Lexicographic.{slice_cmp};
ghost use Rattle.mail_maps.specs.Keywords as keywords;
ghost use Rattle.mail_maps.specs.Serve.{same_names};
ghost use Rattle.mail_maps.specs.reading.Compared as compared;

use crate::keywords::{has_name, keyword_of, keywords_of};
use octets::{Bytes, Names};
use std::alloc::{AllocError, Global};
use std::cmp::Ordering;

/// So many flags are looked through for each name.
const FEW_FLAGS: usize = 16;

/// Whether a name stands before another, by octets.
fn is_below(name: &[u8], other: &[u8]) -> bool
    ensures { result ≡ is_lt (slice_cmp nat_cmp name.now other.now) }
{
    name.cmp(other) == Ordering::Less
}

/// Whether each of the names is above the one before it.
fn ascend(names: &[Bytes]) -> bool
    ensures { result ≡ compared.ascend names.now }
{
    match names {
        [] => true,
        [first, rest @ ..] => ascend_from(first.as_slice(), rest),
    }
}

/// The same, where this name stands before them.
fn ascend_from(before: &[u8], names: &[Bytes]) -> bool
    ensures { result ≡ compared.ascend_from before.now names.now }
{
    let mut last = before;
    for name in names {
        let name = name.as_slice();
        if !is_below(last, name) {
            return false;
        }
        last = name;
    }
    true
}

/// Whether the keyword of a flag, where there is one, is among the names.
fn has_keyword(names: &Names, flag: &[u8]) -> bool
    ensures { result ≡ compared.are_among names.now (keywords.keyword_of flag.now) }
{
    match keyword_of(flag) {
        Some(keyword) => has_name(keyword, names),
        None => true,
    }
}

/// Whether each keyword of the flags is among the names.
fn have_keywords(names: &Names, flags: &[Bytes]) -> bool
    ensures { result ≡ compared.are_among names.now (flat_map keywords.keyword_of flags.now) }
{
    for flag in flags {
        if !has_keyword(names, flag.as_slice()) {
            return false;
        }
    }
    true
}

/// Whether the name is the keyword of a flag.
fn is_keyword(name: &[u8], flag: &[u8]) -> bool
    ensures { result ≡ keywords.has_name name.now (keywords.keyword_of flag.now) }
{
    match keyword_of(flag) {
        Some(keyword) => name == keyword,
        None => false,
    }
}

/// Whether the name is a keyword of the flags.
fn is_of_flags(name: &[u8], flags: &[Bytes]) -> bool
    ensures { result ≡ keywords.has_name name.now (flat_map keywords.keyword_of flags.now) }
{
    for flag in flags {
        if is_keyword(name, flag.as_slice()) {
            return true;
        }
    }
    false
}

/// Whether each of the names is.
fn are_of_flags(names: &[Bytes], flags: &[Bytes]) -> bool
    ensures { result ≡ compared.are_among (flat_map keywords.keyword_of flags.now) names.now }
{
    for name in names {
        if !is_of_flags(name.as_slice(), flags) {
            return false;
        }
    }
    true
}

/// The same of a few flags. It takes no memory, and seeks each keyword among all names and each name among all flags.
fn are_keywords_of_few(names: &Names, flags: &Names) -> bool
    ensures { result ≡ same_names names.now (keywords.keywords_of flags.now) }
{
    ascend(names.as_slice())
        && have_keywords(names, flags.as_slice())
        && are_of_flags(names.as_slice(), flags.as_slice())
}

/// Whether the names are the keywords of flags. It takes memory for many flags alone, whose keywords are made then.
pub fn are_keywords_of(alloc: Global, names: &Names, flags: &Names) -> Result<bool, AllocError>
    ensures { IfOk result (λ b. b ≡ same_names names.now (keywords.keywords_of flags.now)) }
{
    if flags.len() <= FEW_FLAGS {
        return Ok(are_keywords_of_few(names, flags));
    }
    let now = keywords_of(alloc, flags)?;
    Ok(*names == now)
}
