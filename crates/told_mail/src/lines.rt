// The lines of a LIST, found by their names.
ghost use Rattle.std.specs.BTreeSet.{insert_key};
ghost use Rattle.std.specs.Cmp.Lexicographic.{slice_cmp};
ghost use Rattle.std.specs.Option.{option_map, option_and_then, option_copied};
ghost use Rattle.std.specs.Ordering.{nat_cmp};
ghost use Rattle.std.specs.Prelude.{◌≡◌, ◌+◌, ℕ, List, Some, IfOk, OnOk, if◌then◌else◌, slice_get, unwrap_or};
ghost use Rattle.told_mail.specs.Lists as lists;
ghost use Rattle.told_mail.specs.Mail.{is_same};
ghost use Rattle.told_mail.specs.reading.Lines.{value_of, AreLinesFrom};
ghost use Rattle.told_mail.specs.reading.Names.{names_in, place_in};

use crate::list::{Line, line_of};
use imap_types::Response;
use std::alloc::{AllocError, Global};
use std::collections::BTreeMap;

fn line_at(responses: &[Response], at: usize) -> Option<Line<'_>>
    ensures { option_map value_of result ≡ option_and_then lists.line_of (slice_get responses.now at) }
{
    match responses.get(at) {
        Some(response) => line_of(response),
        None => None,
    }
}

/// The place of the name, else this one.
fn last_place(lines: &BTreeMap<Vec<u8>, usize>, name: &[u8], at: usize) -> usize
    ensures { result ≡ unwrap_or (place_in lines.now name.now) at }
{
    match lines.get(name) {
        Some(last) => *last,
        None => at,
    }
}

/// Adds the place of a line, unless there is a later line of its name.
fn add_line(
    lines: &mut BTreeMap<Vec<u8>, usize>,
    name: Vec<u8>,
    at: usize,
) -> Result<(), AllocError>
    ensures names { OnOk result (names_in lines.new ≡ insert_key (slice_cmp nat_cmp) (names_in lines.old) name.items) }
    ensures places { OnOk result ((q : List ℕ) → place_in lines.new q ≡ (if is_same name.items q then Some (unwrap_or (place_in lines.old q) at) else place_in lines.old q)) }
{
    let last = last_place(lines, name.as_slice(), at);
    lines.insert(name, last)?;
    Ok(())
}

/// Adds the response at a place, where it is a line.
fn add_response(
    alloc: Global,
    lines: &mut BTreeMap<Vec<u8>, usize>,
    responses: &[Response],
    at: usize,
) -> Result<(), AllocError>
    requires { AreLinesFrom responses.now (at + 1) lines.old }
    ensures { OnOk result (AreLinesFrom responses.now at lines.new) }
{
    match line_at(responses, at) {
        Some(line) => add_line(lines, line.name.as_slice().to_vec(alloc)?, at),
        None => Ok(()),
    }
}

/// Where the last line of each name stands. Each name is copied.
pub fn lines_of(
    alloc: Global,
    responses: &[Response],
) -> Result<BTreeMap<Vec<u8>, usize>, AllocError>
    ensures { IfOk result (λ lines. AreLinesFrom responses.now 0 lines) }
{
    let mut lines = BTreeMap::new(alloc);
    let mut at = responses.len();
    while 0 < at {
        at -= 1;
        add_response(alloc, &mut lines, responses, at)?;
    }
    Ok(lines)
}

/// The last line of the name.
pub fn line_for<'a>(
    responses: &'a [Response],
    lines: &BTreeMap<Vec<u8>, usize>,
    name: &[u8],
) -> Option<Line<'a>>
    requires { AreLinesFrom responses.now 0 lines.now }
    ensures { option_map value_of result ≡ lists.line_for name.now responses.now }
{
    match lines.get(name) {
        Some(at) => line_at(responses, *at),
        None => None,
    }
}
