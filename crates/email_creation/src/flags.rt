// The flags of the keywords of an Email that is to be created (RFC 8621 section 4.1.1).
ghost use Rattle.std.specs.Prelude.{◌≡◌, IfOk, map};
ghost use Rattle.serde_json.specs.View.{view, members_view};
ghost use Rattle.email_checks.specs.Asked.{keys_of};
ghost use Rattle.email_checks.specs.Keywords as keywords;
ghost use Rattle.email_checks.specs.reading.Sets.{set_keywords};
ghost use Rattle.email_creation.specs.Asked as spec;

use crate::members::member;
use email_checks::{flag_of, keywords_in};
use octets::{Bytes, Names};
use serde_json::{Map, Value};
use std::alloc::{AllocError, Global};
use std::collections::BTreeSet;

/// The flags of a set of keywords.
fn flags_of(alloc: Global, set: &BTreeSet<Vec<u8>>) -> Result<Names, AllocError>
    ensures { IfOk result (λ flags. flags ≡ map keywords.flag_of (set_keywords set.now)) }
{
    let mut flags = Names::new(alloc);
    for keyword in set {
        flags.push(Bytes::copy_of(alloc, flag_of(keyword.as_slice()))?)?;
    }
    Ok(flags)
}

/// The flags of the keywords that an object has; another value has none.
fn flags_in(alloc: Global, value: &Value) -> Result<Names, AllocError>
    ensures { IfOk result (λ flags. flags ≡ map keywords.flag_of (keywords.sorted_names (map keywords.keyword_in (keys_of (view value.now))))) }
{
    match value.as_object() {
        None => Ok(Names::new(alloc)),
        Some(members) => flags_of(alloc, &keywords_in(alloc, members)?),
    }
}

/// The flags of the keywords that the properties ask.
pub fn flags_asked(alloc: Global, properties: &Map<String, Value>) -> Result<Names, AllocError>
    ensures { IfOk result (λ flags. flags ≡ spec.flags_asked (members_view properties.now.entries)) }
{
    match member(properties, "keywords") {
        None => Ok(Names::new(alloc)),
        Some(value) => flags_in(alloc, value),
    }
}
