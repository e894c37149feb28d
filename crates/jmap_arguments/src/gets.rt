// What /get methods share: which objects are asked, and the answer.
ghost use Rattle.std.specs.Prelude.{◌≡◌, ◌<◌, ◌^◌, ◌||◌, ℕ, List, All, IfOk, OnOk, map, not, option_map, bytes_eq};
ghost use Rattle.std.specs.List.Sorted.{IsStrictlySortedBy};
ghost use Rattle.std.specs.Ordering.{nat_cmp};
ghost use Rattle.serde_json.specs.Data.{string};
ghost use Rattle.serde_json.specs.View.{view};
ghost use Rattle.jmap_arguments.specs.Arguments.{is_among};
ghost use Rattle.jmap_arguments.specs.Gets as spec;
ghost use Rattle.jmap_arguments.specs.Outcome.{Agrees};
ghost use Rattle.jmap_arguments.specs.declared.method_error.MethodError.TheVariants.{Memory};

use crate::arguments::{ACCOUNT_ID, check_count};
use crate::ids::read_id;
use crate::method_error::MethodError;
use crate::numbers::Numbers;
use serde_json::{Value, json};
use std::alloc::{AllocError, Global};
use std::collections::BTreeSet;

/// How many ids are asked for by name.
pub fn count_of_ids(ids: &Option<Vec<&str>>) -> usize
    ensures { result ≡ spec.count_of_ids (option_map (λ v. map (λ t. t.now) v.items) ids.now) }
{
    match ids {
        None => 0,
        Some(ids) => ids.len(),
    }
}

/// Adds a text to those seen, and says whether it is new among them.
pub fn is_new<'a>(seen: &mut BTreeSet<&'a str>, text: &'a str) -> Result<bool, AllocError>
    ensures new { IfOk result (λ new. new ≡ not (is_among text.now (map (λ t. t.now) seen.old.keys))) }
    ensures seen { OnOk result ((other : List ℕ) → is_among other (map (λ t. t.now) seen.new.keys)
        ≡ (bytes_eq text.now other || is_among other (map (λ t. t.now) seen.old.keys))) }
{
    Ok(seen.insert(text)?)
}

/// Each id once, where it stands first.
pub fn distinct<'a>(alloc: Global, ids: &Vec<&'a str>) -> Result<Vec<&'a str>, AllocError>
    ensures { IfOk result (λ v. map (λ t. t.now) v.items
        ≡ spec.distinct_ids (map (λ t. t.now) ids.now.items)) }
{
    let mut seen = BTreeSet::new(alloc);
    let mut once = Vec::new(alloc);
    for id in ids {
        let new = is_new(&mut seen, *id)?;
        if new {
            once.push(*id)?;
        }
    }
    Ok(once)
}

/// Which objects a /get asks.
#[derive(Drop)]
pub struct AskedNumbers<'a> {
    /// The numbers of those that there are, in the order asked.
    pub numbers: Vec<u64>,
    /// The ids of which there is none, in the order asked (`notFound` of RFC 8620 section 5.1).
    pub missing: Vec<&'a str>,
}

/// The number of the object with the id, where there is one.
fn number_with<T: Numbers>(letter: char, there: &T, id: &str) -> Option<u64>
    requires ascii { letter < 128 }
    requires small { All (λ n. n < 2 ^ 64) (T.numbers there.now) }
    ensures { result ≡ spec.number_with letter (T.numbers there.now) id.now }
{
    match read_id(letter, id) {
        None => None,
        Some(number) => {
            if there.has(number) {
                Some(number)
            } else {
                None
            }
        }
    }
}

/// What is asked by these ids.
fn numbers_with<'a, T: Numbers>(
    alloc: Global,
    letter: char,
    there: &T,
    ids: &Vec<&'a str>,
) -> Result<AskedNumbers<'a>, AllocError>
    requires ascii { letter < 128 }
    requires small { All (λ n. n < 2 ^ 64) (T.numbers there.now) }
    ensures numbers { IfOk result (λ a. a.numbers.items ≡ (spec.asked_with letter (T.numbers there.now) (map (λ t. t.now) ids.now.items)).numbers) }
    ensures missing { IfOk result (λ a. map (λ t. t.now) a.missing.items
        ≡ (spec.asked_with letter (T.numbers there.now) (map (λ t. t.now) ids.now.items)).missing) }
{
    let mut numbers = Vec::new(alloc);
    let mut missing = Vec::new(alloc);
    for id in ids {
        match number_with(letter, there, *id) {
            None => missing.push(*id)?,
            Some(number) => numbers.push(number)?,
        }
    }
    Ok(AskedNumbers { numbers, missing })
}

/// What is asked by `ids`, of objects with the numbers that there are (RFC 8620 section 5.1): those with the ids, each once, in the
/// order asked, or all where they are null. `RequestTooLarge` comes exactly where all are asked and they are more than
/// `MAX_OBJECTS_IN_GET`.
pub fn asked_numbers<'a, T: Numbers>(
    alloc: Global,
    letter: char,
    there: &T,
    ids: &Option<Vec<&'a str>>,
) -> Result<AskedNumbers<'a>, MethodError>
    requires { letter < 128 }
    ensures asked { Agrees Memory (λ a. record { numbers = a.numbers.items; missing = map (λ t. t.now) a.missing.items }) result
        (spec.numbers_asked letter (T.numbers there.now) (option_map (λ v. map (λ t. t.now) v.items) ids.now)) }
    ensures ascending { IsStrictlySortedBy nat_cmp (T.numbers there.now) }
{
    let count = there.count();
    match ids {
        Some(ids) => {
            let once = distinct(alloc, ids)?;
            Ok(numbers_with(alloc, letter, there, &once)?)
        }
        None => {
            check_count(count)?;
            let numbers = there.all()?;
            let missing = Vec::new(alloc);
            Ok(AskedNumbers { numbers, missing })
        }
    }
}

/// Texts as values.
fn text_values(alloc: Global, texts: &Vec<&str>) -> Result<Vec<Value>, AllocError>
    ensures { IfOk result (λ v. map view v.items ≡ map string (map (λ t. t.now) texts.now.items)) }
{
    let mut values = Vec::with_capacity(alloc, texts.len())?;
    for text in texts {
        values.push(Value::try_from_str(alloc, *text)?)?;
    }
    Ok(values)
}

/// The answer of a /get in this state (RFC 8620 section 5.1): the objects that were found, and the ids of which there is none.
pub fn get_value(
    alloc: Global,
    state: &str,
    list: Vec<Value>,
    missing: &Vec<&str>,
) -> Result<Value, AllocError>
    ensures { IfOk result (λ value. view value
        ≡ spec.get_data state.now (map view list.items) (map string (map (λ t. t.now) missing.now.items))) }
{
    let missing = text_values(alloc, missing)?;
    json!(in alloc; {
        "accountId": ACCOUNT_ID,
        "list": Value::Array(list),
        "notFound": Value::Array(missing),
        "state": state,
    })
}
