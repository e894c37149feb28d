// What is answered, of the ids that were touched and the list as it is now.
ghost use Rattle.std.specs.Prelude.{◌≡◌, ◌<◌, false, IfOk};
ghost use Rattle.serde_json.specs.Data.{no_members};
ghost use Rattle.serde_json.specs.View.{view, members_view};
ghost use Rattle.serde_json.specs.Written.{has_float};
ghost use Rattle.jmap_arguments.specs.Outcome.{Agrees};
ghost use Rattle.jmap_arguments.specs.State.{state_text as text_of_state};
ghost use Rattle.jmap_arguments.specs.declared.method_error.MethodError.TheVariants.{Memory};
ghost use Rattle.query_changes.specs.Changes as spec;
ghost use Rattle.query_changes.specs.reading.Found.{told_or_refused};

use crate::told::{is_no_more_than, now_in, were_there};
use crate::touched::Touched;
use jmap_arguments::{ACCOUNT_ID, MethodError, State, id_list, id_value, put_text, state_text};
use query_core::put_total;
use serde_json::{Map, Value, json, put};
use std::alloc::{AllocError, Global};

/// An id that is put in, with its index.
fn added_item(alloc: Global, letter: char, index: u64, number: u64) -> Result<Value, AllocError>
    requires { letter < 128 }
    ensures { IfOk result (λ value. view value ≡ spec.added_item letter (index, number)) }
{
    let id = id_value(alloc, letter, number)?;
    json!(in alloc; {"id": id, "index": index})
}

fn added_list(alloc: Global, letter: char, added: &[(u64, u64)]) -> Result<Value, AllocError>
    requires { letter < 128 }
    ensures { IfOk result (λ value. view value ≡ spec.added_data letter added.now) }
{
    let mut objects = Vec::with_capacity(alloc, added.len())?;
    for entry in added {
        objects.push(added_item(alloc, letter, entry.0, entry.1)?)?;
    }
    Ok(Value::Array(objects))
}

/// The members of an answer but for the total.
fn told_members(
    alloc: Global,
    letter: char,
    since: &str,
    now: State,
    removed: &[u64],
    added: &[(u64, u64)],
) -> Result<Map<String, Value>, AllocError>
    requires { letter < 128 }
    ensures { IfOk result (λ members. members_view members.entries
        ≡ spec.told_members letter since.now (text_of_state now) removed.now added.now no_members) }
{
    let now = state_text(alloc, now)?;
    let added = added_list(alloc, letter, added)?;
    let removed = id_list(alloc, letter, removed)?;
    let mut members = Map::new(alloc);
    put_text(&mut members, alloc, "accountId", ACCOUNT_ID)?;
    put(&mut members, alloc, "added", added)?;
    put_text(&mut members, alloc, "newQueryState", now.as_str())?;
    put_text(&mut members, alloc, "oldQueryState", since)?;
    put(&mut members, alloc, "removed", removed)?;
    Ok(members)
}

/// The answer: `TooManyChanges` exactly where more ids would be told than `most`.
pub(crate) fn reply(
    alloc: Global,
    letter: char,
    since: &str,
    most: Option<u64>,
    counts: bool,
    touched: &Touched,
    list: &[u64],
) -> Result<Value, MethodError>
    requires { letter < 128 }
    ensures agrees { Agrees Memory view result (told_or_refused letter since.now (text_of_state touched.now.last) most counts touched.now.ids list.now) }
    ensures whole { IfOk result (λ value. has_float (view value) ≡ false) }
{
    let ids = touched.ids.as_slice();
    let removed = were_there(alloc, ids)?;
    let added = now_in(alloc, list, ids)?;
    if !is_no_more_than(most, &removed, &added) {
        return Err(MethodError::TooManyChanges);
    }
    let mut members = told_members(alloc, letter, since, touched.last, &removed, &added)?;
    put_total(&mut members, alloc, counts, list.len())?;
    Ok(Value::Object(members))
}
