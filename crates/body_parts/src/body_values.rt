// The values of the texts of a message (RFC 8621 section 4.1.4, bodyValues).
ghost use Rattle.std.specs.Prelude.{◌≡◌, ◌||◌, ◌&&◌, ◌==◌, ℕ, IfOk, OnOk};
ghost use Rattle.std.specs.BTreeSet.{contains};
ghost use Rattle.std.specs.Ordering.{nat_cmp};
ghost use Rattle.serde_json.specs.View.{view, members_view};
ghost use Rattle.email_properties.specs.Wanted.{body_asked};
ghost use Rattle.mime_tree.specs.declared.part.Part.{Part};
ghost use Rattle.mime_tree.specs.Parts.{IsWithin};
ghost use Rattle.mime_tree.specs.Roles as roles;
ghost use Rattle.body_parts.specs.BodyValues as spec;
ghost use Rattle.body_parts.specs.BodyProperties.{AreValuesData};
ghost use Rattle.body_parts.specs.reading.LeafLists.{parts_of, AreAllWithin};
ghost use Rattle.body_parts.specs.reading.StepsIf.{StepIf};
ghost use Rattle.body_parts.specs.Steps.{InTurn};
ghost use Rattle.body_parts.specs.reading.Fetching.{is_fetched_in, has_value_in};

use crate::cuts::bounded;
use crate::texts::{PartText, text_of};
use email_properties::BodyWanted;
use json_texts::owned_text_value;
use mime_tree::head::is_text;
use mime_tree::{BodyLists, Part};
use serde_json::{Map, Value, json, put};
use std::alloc::{AllocError, Global};
use std::collections::BTreeSet;
use text_words::same_text;

/// An EmailBodyValue of at most that many octets of a text, which is HTML or not.
fn value_of(alloc: Global, text: PartText, most: u64, html: bool) -> Result<Value, AllocError>
    ensures { IfOk result (λ v. spec.IsValueData html most text.text.items text.problem (view v)) }
{
    let PartText { text, problem } = text;
    let (front, truncated) = bounded(text, most, html);
    let value = owned_text_value(alloc, front)?;
    json!(in alloc; {
        "isEncodingProblem": problem,
        "isTruncated": truncated,
        "value": value,
    })
}

fn is_html(part: &Part) -> bool
    ensures { result ≡ roles.is_html part.now }
{
    same_text(part.media.as_slice(), b"text/html")
}

/// Puts the value of a text of these octets at its part id.
fn put_text(
    values: &mut Map<String, Value>,
    alloc: Global,
    octets: &[u8],
    part: &Part,
    most: u64,
) -> Result<(), AllocError>
    requires { IsWithin part.now octets.now }
    ensures { OnOk result (spec.PutsValue most octets.now part.now (members_view values.old.entries) (members_view values.new.entries)) }
{
    let text = text_of(alloc, octets, part)?;
    let value = value_of(alloc, text, most, is_html(part))?;
    let number = part.number.unwrap_or(0);
    let key = format!(in alloc; "{number}")?;
    put(values, alloc, key.as_str(), value)
}

/// The leaves whose values are fetched.
#[derive(Drop)]
pub(crate) struct Fetched {
    /// All of them.
    pub all: bool,
    /// Those of these numbers.
    pub numbers: BTreeSet<u64>,
}

fn add_number(fetched: &mut BTreeSet<u64>, number: u64) -> Result<(), AllocError>
    ensures { OnOk result ((n : ℕ) → contains nat_cmp fetched.new n ≡ (contains nat_cmp fetched.old n || number == n)) }
{
    fetched.insert(number)?;
    Ok(())
}

/// Adds the numbers to those whose values are fetched, where that is asked.
fn add_numbers(fetched: &mut BTreeSet<u64>, asked: bool, numbers: &[u64]) -> Result<(), AllocError>
    ensures { OnOk result ((n : ℕ) → contains nat_cmp fetched.new n ≡ (contains nat_cmp fetched.old n || (asked && spec.is_listed numbers.now n))) }
{
    if !asked {
        return Ok(());
    }
    for number in numbers {
        add_number(fetched, *number)?;
    }
    Ok(())
}

/// The leaves whose values are asked.
fn fetched_of(
    alloc: Global,
    asked: &BodyWanted<'_>,
    lists: &BodyLists,
) -> Result<Fetched, AllocError>
    ensures { IfOk result (λ f. (p : Part) → is_fetched_in f p ≡ spec.is_fetched (body_asked asked.now) lists.now p) }
{
    let mut numbers = BTreeSet::new(alloc);
    add_numbers(&mut numbers, asked.text_values, lists.text.as_slice())?;
    add_numbers(&mut numbers, asked.html_values, lists.html.as_slice())?;
    Ok(Fetched {
        all: asked.all_values,
        numbers,
    })
}

fn is_fetched(fetched: &Fetched, part: &Part) -> bool
    ensures { result ≡ is_fetched_in fetched.now part.now }
{
    fetched.all || fetched.numbers.contains(&part.number.unwrap_or(0))
}

/// Puts the value of a leaf of these octets, where it has one.
fn put_value(
    values: &mut Map<String, Value>,
    alloc: Global,
    octets: &[u8],
    part: &Part,
    fetched: &Fetched,
    most: u64,
) -> Result<(), AllocError>
    requires { IsWithin part.now octets.now }
    ensures { OnOk result (StepIf (has_value_in fetched.now) (spec.PutsValue most octets.now) part.now (members_view values.old.entries) (members_view values.new.entries)) }
{
    if is_text(part.media.as_slice()) && is_fetched(fetched, part) {
        return put_text(values, alloc, octets, part, most);
    }
    Ok(())
}

/// Puts the values of the leaves that have one. Beside them one text is held at a time.
fn put_values(
    values: &mut Map<String, Value>,
    alloc: Global,
    octets: &[u8],
    leaves: &[&Part],
    fetched: &Fetched,
    most: u64,
) -> Result<(), AllocError>
    requires { AreAllWithin octets.now (parts_of leaves.now) }
    ensures { OnOk result (InTurn (StepIf (has_value_in fetched.now) (spec.PutsValue most octets.now)) (parts_of leaves.now)
        (members_view values.old.entries) (members_view values.new.entries)) }
{
    for part in leaves {
        put_value(values, alloc, octets, *part, fetched, most)?;
    }
    Ok(())
}

/// The values that are asked of the leaves, by their part ids.
pub(crate) fn values_value(
    alloc: Global,
    octets: &[u8],
    leaves: &[&Part],
    lists: &BodyLists,
    asked: &BodyWanted<'_>,
) -> Result<Value, AllocError>
    requires { AreAllWithin octets.now (parts_of leaves.now) }
    ensures { IfOk result (λ v. AreValuesData (body_asked asked.now) lists.now octets.now (parts_of leaves.now) (view v)) }
{
    let fetched = fetched_of(alloc, asked, lists)?;
    let mut values = Map::new(alloc);
    put_values(
        &mut values,
        alloc,
        octets,
        leaves,
        &fetched,
        asked.max_octets,
    )?;
    Ok(Value::Object(values))
}
