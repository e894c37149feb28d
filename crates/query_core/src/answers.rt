// What a query answers of a list.
ghost use Rattle.std.specs.Prelude.{◌≡◌, ◌<◌, IfOk, OnOk, codes, length, if◌then◌else◌};
ghost use Rattle.serde_json.specs.Data.{number, put as put_data, unsigned};
ghost use Rattle.serde_json.specs.View.{view, members_view};
ghost use Rattle.jmap_arguments.specs.Outcome.{Agrees};
ghost use Rattle.jmap_arguments.specs.declared.method_error.MethodError.TheVariants.{Memory};
ghost use Rattle.query_core.specs.Answers.{query_data};
ghost use Rattle.query_core.specs.reading.ListAnswers.{list_answer};

use crate::parts::part_of;
use jmap_arguments::{ACCOUNT_ID, MethodError, id_list, put_text};
use query_arguments::AskedPart;
use query_lists::Window;
use serde_json::{Map, Value, put};
use std::alloc::{AllocError, Global};

/// Adds `total`, where it is asked.
pub fn put_total(
    members: &mut Map<String, Value>,
    alloc: Global,
    counts: bool,
    total: usize,
) -> Result<(), AllocError>
    ensures { OnOk result (members_view members.new.entries
        ≡ (if counts then put_data (codes "total") (number (unsigned total)) (members_view members.old.entries) else members_view members.old.entries)) }
{
    if counts {
        put(members, alloc, "total", Value::from(total as u64))?;
    }
    Ok(())
}

/// The answer of a query (RFC 8620 section 5.5), in this state of the type: this part of the list.
fn query_value(
    alloc: Global,
    letter: char,
    state: &str,
    calculable: bool,
    list: &[u64],
    counts: bool,
    part: Window<'_>,
) -> Result<Value, AllocError>
    requires { letter < 128 }
    ensures { IfOk result (λ value. view value
        ≡ query_data letter state.now calculable list.now counts (record { start = part.entry.start; numbers = part.entry.numbers.now })) }
{
    let ids = id_list(alloc, letter, part.numbers)?;
    let mut members = Map::new(alloc);
    put_text(&mut members, alloc, "accountId", ACCOUNT_ID)?;
    put(
        &mut members,
        alloc,
        "canCalculateChanges",
        Value::from(calculable),
    )?;
    put(&mut members, alloc, "ids", ids)?;
    put(&mut members, alloc, "position", Value::from(part.start))?;
    put_text(&mut members, alloc, "queryState", state)?;
    put_total(&mut members, alloc, counts, list.len())?;
    Ok(Value::Object(members))
}

/// What is answered of a list.
pub(crate) fn answer(
    alloc: Global,
    letter: char,
    state: &str,
    calculable: bool,
    list: &[u64],
    counts: bool,
    part: &AskedPart,
) -> Result<Value, MethodError>
    requires { letter < 128 }
    ensures { Agrees Memory view result (list_answer letter state.now calculable list.now counts part.now) }
{
    match part_of(letter, list, part) {
        None => Err(MethodError::AnchorNotFound),
        Some(window) => {
            let value = query_value(alloc, letter, state, calculable, list, counts, window)?;
            Ok(value)
        }
    }
}
