// The keywords that an update of an Email asks.
ghost use Rattle.std.specs.Prelude.{◌≡◌, ◌||◌, ℕ, List, IfOk, OnOk, None, bytes_eq, map, option_map, option_to_list};
ghost use Rattle.std.specs.List.{list_any};
ghost use Rattle.serde_json.specs.View.{view, members_view};
ghost use Rattle.jmap_arguments.specs.Arguments.{is_among};
ghost use Rattle.mail_maps.specs.Keywords.{keywords_of};
ghost use Rattle.mail_maps.specs.reading.Sets.{set_items};
ghost use Rattle.set_patches.specs.Patches.{is_null, patch_in};
ghost use Rattle.set_patches.specs.reading.Parts.{part_data};
ghost use Rattle.email_checks.specs.Asked as spec;
ghost use Rattle.email_checks.specs.Keywords.{keyword_in, sorted_names, with_name, without_name};
ghost use Rattle.email_checks.specs.reading.Sets.{set_keywords};

use crate::email_test::is_null;
use crate::keywords::{keywords_in, lower_case};
use mail_maps::keywords::keyword_set;
use octets::Names;
use serde_json::{Map, Value};
use set_patches::{Part, Pointer, is_invalid_patch};
use std::alloc::{AllocError, Global};
use std::collections::BTreeSet;

/// The properties of an Email that have members.
const EMAIL_OBJECTS: [&str; 4] = ["bodyStructure", "bodyValues", "keywords", "mailboxIds"];

// ---- invalid patches

/// The keyword that a pointer is of, in letters of any case.
fn keyword_pointed(pointer: &Pointer) -> Option<&str>
    ensures { option_to_list (option_map (λ key. keyword_in key.now) result) ≡ spec.keyword_pointed pointer.now }
{
    match pointer {
        Pointer::Within(property, key) => {
            if property.as_str() == "keywords" {
                Some(key.as_str())
            } else {
                None
            }
        }
        Pointer::Whole(_) | Pointer::Deeper(_) => None,
    }
}

/// Adds a keyword, and says whether it was there.
fn is_repeat(alloc: Global, keywords: &mut BTreeSet<Vec<u8>>, key: &str) -> Result<bool, AllocError>
    ensures repeat { IfOk result (λ repeat. repeat ≡ is_among (keyword_in key.now) (set_keywords keywords.old)) }
    ensures keywords { OnOk result ((other : List ℕ) → is_among other (set_keywords keywords.new)
        ≡ (bytes_eq (keyword_in key.now) other || is_among other (set_keywords keywords.old))) }
{
    let new = keywords.insert(lower_case(alloc, key)?)?;
    Ok(!new)
}

/// The same of the keyword that a pointer is of.
fn repeats(
    alloc: Global,
    keywords: &mut BTreeSet<Vec<u8>>,
    pointer: &Pointer,
) -> Result<bool, AllocError>
    ensures repeat { IfOk result (λ repeat. repeat ≡ list_any (λ k. is_among k (set_keywords keywords.old)) (spec.keyword_pointed pointer.now)) }
    ensures keywords { OnOk result ((other : List ℕ) → is_among other (set_keywords keywords.new)
        ≡ (is_among other (spec.keyword_pointed pointer.now) || is_among other (set_keywords keywords.old))) }
{
    match keyword_pointed(pointer) {
        None => Ok(false),
        Some(key) => Ok(is_repeat(alloc, keywords, key)?),
    }
}

/// Whether two parts are of one keyword, in letters of any case. It costs a look-up a part.
fn has_repeat(alloc: Global, parts: &Vec<Part<'_>>) -> Result<bool, AllocError>
    ensures { IfOk result (λ repeat. repeat ≡ spec.has_repeat (spec.keywords_pointed (map part_data parts.now.items))) }
{
    let mut keywords = BTreeSet::new(alloc);
    for part in parts {
        if repeats(alloc, &mut keywords, &part.pointer)? {
            return Ok(true);
        }
    }
    Ok(false)
}

/// Whether parts overlap or lead nowhere, or two are of one keyword.
pub(crate) fn is_invalid(
    alloc: Global,
    patch: &Map<String, Value>,
    parts: &Vec<Part<'_>>,
) -> Result<bool, AllocError>
    requires { map part_data parts.now.items ≡ patch_in (members_view patch.now.entries) }
    ensures { IfOk result (λ invalid. invalid ≡ spec.is_invalid_email_patch (members_view patch.now.entries)) }
{
    if is_invalid_patch(&EMAIL_OBJECTS, patch, parts) {
        return Ok(true);
    }
    Ok(has_repeat(alloc, parts)?)
}

// ---- what is asked

/// The keywords of an object; none where it is null.
fn keywords_given(alloc: Global, value: &Value) -> Result<BTreeSet<Vec<u8>>, AllocError>
    ensures { IfOk result (λ set. set_keywords set ≡ sorted_names (map keyword_in (spec.keys_of (view value.now)))) }
{
    match value.as_object() {
        None => Ok(BTreeSet::new(alloc)),
        Some(members) => Ok(keywords_in(alloc, members)?),
    }
}

fn set_keyword(alloc: Global, keywords: &mut BTreeSet<Vec<u8>>, key: &str) -> Result<(), AllocError>
    ensures { OnOk result (set_keywords keywords.new ≡ with_name (keyword_in key.now) (set_keywords keywords.old)) }
{
    keywords.insert(lower_case(alloc, key)?)?;
    Ok(())
}

fn take_keyword(
    alloc: Global,
    keywords: &mut BTreeSet<Vec<u8>>,
    key: &str,
) -> Result<(), AllocError>
    ensures { OnOk result (set_keywords keywords.new ≡ without_name (keyword_in key.now) (set_keywords keywords.old)) }
{
    let keyword = lower_case(alloc, key)?;
    keywords.remove(&keyword);
    Ok(())
}

/// Sets a keyword, or takes it where null stands there.
fn patch_keyword(
    alloc: Global,
    keywords: &mut BTreeSet<Vec<u8>>,
    key: &str,
    value: &Value,
) -> Result<(), AllocError>
    ensures { OnOk result (set_keywords keywords.new ≡ spec.patched (keyword_in key.now) (is_null (view value.now)) (set_keywords keywords.old)) }
{
    if is_null(value) {
        return take_keyword(alloc, keywords, key);
    }
    set_keyword(alloc, keywords, key)
}

/// The keywords that were asked before; where none were, those of the flags.
fn asked_or_held(
    alloc: Global,
    before: Option<BTreeSet<Vec<u8>>>,
    flags: &Names,
) -> Result<BTreeSet<Vec<u8>>, AllocError>
    ensures { IfOk result (λ set. set_keywords set ≡ spec.names_or (option_map set_keywords before) (keywords_of flags.now)) }
{
    match before {
        Some(keywords) => Ok(keywords),
        None => Ok(keyword_set(alloc, flags.as_slice())?),
    }
}

/// The keywords after a pointer to one of them.
fn after_keyword(
    alloc: Global,
    key: &str,
    value: &Value,
    before: Option<BTreeSet<Vec<u8>>>,
    flags: &Names,
) -> Result<BTreeSet<Vec<u8>>, AllocError>
    ensures { IfOk result (λ set. set_keywords set
        ≡ spec.patched (keyword_in key.now) (is_null (view value.now)) (spec.names_or (option_map set_keywords before) (keywords_of flags.now))) }
{
    let mut keywords = asked_or_held(alloc, before, flags)?;
    patch_keyword(alloc, &mut keywords, key, value)?;
    Ok(keywords)
}

/// The keywords after a part, where these were asked before it: None where none were patched.
fn keywords_after(
    alloc: Global,
    part: &Part<'_>,
    before: Option<BTreeSet<Vec<u8>>>,
    flags: &Names,
) -> Result<Option<BTreeSet<Vec<u8>>>, AllocError>
    ensures { IfOk result (λ o. option_map set_keywords o
        ≡ spec.keywords_after part.now.pointer (view part.now.value.now) (option_map set_keywords before) (keywords_of flags.now)) }
{
    match &part.pointer {
        Pointer::Whole(property) => {
            if property.as_str() == "keywords" {
                Ok(Some(keywords_given(alloc, part.value)?))
            } else {
                Ok(before)
            }
        }
        Pointer::Within(property, key) => {
            if property.as_str() == "keywords" {
                Ok(Some(after_keyword(alloc, key.as_str(), part.value, before, flags)?))
            } else {
                Ok(before)
            }
        }
        Pointer::Deeper(_) => Ok(before),
    }
}

/// The keywords that a patch asks, or None where it patches none.
pub(crate) fn asked_keywords(
    alloc: Global,
    parts: &Vec<Part<'_>>,
    flags: &Names,
) -> Result<Option<BTreeSet<Vec<u8>>>, AllocError>
    ensures { IfOk result (λ o. option_map set_keywords o ≡ spec.asked_keywords (map part_data parts.now.items) None (keywords_of flags.now)) }
{
    let mut asked = None;
    for part in parts {
        asked = keywords_after(alloc, part, asked, flags)?;
    }
    Ok(asked)
}
