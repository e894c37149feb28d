// Lists as they are answered, and what is told of their changes.
use serde_json::Value;
use std::alloc::{AllocError, Global};

/// How many touches of a type are kept.
const KEPT: u64 = 8192;

/// A list in a state: the state's text, and the numbers of the ids.
#[derive(Drop)]
pub(crate) struct AnsweredList {
    pub(crate) state: String,
    pub(crate) ids: Vec<u64>,
}

impl AnsweredList {
    pub(crate) fn copy(&self) -> Result<AnsweredList, AllocError> {
        Ok(AnsweredList {
            state: self.state.clone()?,
            ids: self.ids.clone()?,
        })
    }
}

/// What is told of a list: the numbers that are taken out, and those that are put in, with their indexes.
#[derive(Drop)]
pub(crate) struct ListChanges {
    pub(crate) removed: Vec<u64>,
    pub(crate) added: Vec<(u64, u64)>,
}

/// The number of an id, which begins with the letter.
fn number(letter: char, id: &Value) -> Option<u64> {
    let digits = id.as_str()?.strip_prefix(letter)?;
    digits.parse::<u64>().ok()
}

/// The index and the number of what is put in.
fn index_and_number(letter: char, item: &Value) -> Option<(u64, u64)> {
    let index = item.get("index").and_then(Value::as_u64)?;
    let number = number(letter, item.get("id")?)?;
    Some((index, number))
}

/// The values of a member that is an array, else none.
fn array<'a>(answer: &'a Value, key: &str) -> &'a [Value] {
    match answer.get(key).and_then(Value::as_array) {
        Some(values) => values,
        None => &[],
    }
}

/// The text of a member, which is empty where it is no text.
fn text(alloc: Global, answer: &Value, key: &str) -> Result<String, AllocError> {
    let text = answer.get(key).and_then(Value::as_str).unwrap_or("");
    String::from_str(alloc, text)
}

/// The numbers of a member's ids, with 0 where one isn't an id.
fn numbers(alloc: Global, answer: &Value, key: &str, letter: char) -> Result<Vec<u64>, AllocError> {
    let mut numbers = Vec::new(alloc);
    for id in array(answer, key) {
        numbers.push(number(letter, id).unwrap_or(0))?;
    }
    Ok(numbers)
}

/// The list of a query's answer.
pub(crate) fn list_of(
    alloc: Global,
    answer: &Value,
    letter: char,
) -> Result<AnsweredList, AllocError> {
    Ok(AnsweredList {
        state: text(alloc, answer, "queryState")?,
        ids: numbers(alloc, answer, "ids", letter)?,
    })
}

/// What the answer of a queryChanges tells.
pub(crate) fn changes_of(
    alloc: Global,
    answer: &Value,
    letter: char,
) -> Result<ListChanges, AllocError> {
    let mut added = Vec::new(alloc);
    for item in array(answer, "added") {
        added.push(index_and_number(letter, item).unwrap_or((u64::MAX, 0)))?;
    }
    let removed = numbers(alloc, answer, "removed", letter)?;
    Ok(ListChanges { removed, added })
}

/// Whether the answer goes from this state to that one.
pub(crate) fn is_between(answer: &Value, old: &str, new: &str) -> bool {
    let old_told = answer.get("oldQueryState").and_then(Value::as_str);
    let new_told = answer.get("newQueryState").and_then(Value::as_str);
    old_told == Some(old) && new_told == Some(new)
}

/// The place of a state: how many touches there were.
fn place(state: &str) -> u64 {
    match state.split_once('-') {
        Some((_, place)) => place.parse::<u64>().unwrap_or(0),
        None => 0,
    }
}

/// Whether more touches than are kept lie between the states.
pub(crate) fn is_too_old(old: &str, new: &str) -> bool {
    KEPT < place(new).saturating_sub(place(old))
}

/// The list without what is removed, in its order.
fn without(alloc: Global, ids: &[u64], removed: &[u64]) -> Result<Vec<u64>, AllocError> {
    let mut left = Vec::new(alloc);
    for id in ids {
        if !removed.contains(id) {
            left.push(*id)?;
        }
    }
    Ok(left)
}

/// Splices a list (RFC 8620 section 5.6): what is removed is taken out; then what is added is put in one after the other, by ascending
/// index. None where it stands in another order, or an index lies behind the end.
pub(crate) fn spliced(
    alloc: Global,
    ids: &[u64],
    changes: &ListChanges,
) -> Result<Option<Vec<u64>>, AllocError> {
    let mut list = without(alloc, ids, &changes.removed)?;
    let mut least = 0;
    for (index, id) in &changes.added {
        let at = *index as usize;
        if *index < least || list.len() < at {
            return Ok(None);
        }
        list.insert(at, *id)?;
        least = index.saturating_add(1);
    }
    Ok(Some(list))
}
