// Items of a FETCH and counts of a STATUS, with a space between two (RFC 9051 sections 7.3.3 and 7.5.2).
ghost use Rattle.std.specs.Prelude.{◌≡◌, ◌++◌, ◌∷◌, [], true, IfOk, OnOk, if◌then◌else◌};
ghost use Rattle.imap_types.specs.Lines as lines;
ghost use Rattle.store_responses.specs.ResponseTexts as texts;
ghost use Rattle.store_responses.specs.reading.Items.{WritesItems};

use crate::numbers::push_number;
use crate::strings::{push_literal, push_names};
use imap_types::{FetchItems, StatusItems};
use imap_values::push_date;
use octets::{Bytes, Names};
use std::alloc::AllocError;

/// Adds a space where an item stands before.
fn push_gap(out: &mut Vec<u8>, first: bool) -> Result<(), AllocError>
    ensures { OnOk result (out.new.items ≡ out.old.items ++ (if first then [] else 32 ∷ [])) }
{
    if !first {
        out.push(b' ')?;
    }
    Ok(())
}

/// Adds a word and a number, where it is told, and says whether no item was so far.
fn push_count(
    out: &mut Vec<u8>,
    word: &[u8],
    count: Option<u64>,
    first: bool,
) -> Result<bool, AllocError>
    ensures { IfOk result (λ none. WritesItems out.old.items out.new.items first (texts.count_text word.now count) none) }
{
    let Some(count) = count else {
        return Ok(first);
    };
    push_gap(out, first)?;
    out.extend_from_slice(word)?;
    push_number(out, b" ", count)?;
    Ok(false)
}

/// Adds FLAGS, where they are told, and says whether no item was so far.
fn push_flags(out: &mut Vec<u8>, flags: &Option<Names>, first: bool) -> Result<bool, AllocError>
    ensures { IfOk result (λ none. WritesItems out.old.items out.new.items first (texts.flags_text flags.now) none) }
{
    let Some(flags) = flags else {
        return Ok(first);
    };
    push_gap(out, first)?;
    out.extend_from_slice(b"FLAGS ")?;
    push_names(out, flags)?;
    Ok(false)
}

/// Adds MODSEQ, where it is told, and says whether no item was so far.
fn push_modseq(out: &mut Vec<u8>, modseq: Option<u64>, first: bool) -> Result<bool, AllocError>
    ensures { IfOk result (λ none. WritesItems out.old.items out.new.items first (texts.modseq_text modseq) none) }
{
    let Some(modseq) = modseq else {
        return Ok(first);
    };
    push_gap(out, first)?;
    push_number(out, b"MODSEQ (", modseq)?;
    out.push(b')')?;
    Ok(false)
}

/// Adds INTERNALDATE, where it is told, and says whether no item was so far.
fn push_internal_date(out: &mut Vec<u8>, date: Option<i64>, first: bool) -> Result<bool, AllocError>
    ensures { IfOk result (λ none. WritesItems out.old.items out.new.items first (texts.internal_date_text date) none) }
{
    let Some(date) = date else {
        return Ok(first);
    };
    push_gap(out, first)?;
    out.extend_from_slice(b"INTERNALDATE ")?;
    push_date(out, date)?;
    Ok(false)
}

/// Adds a word and a literal, where it is told, and says whether no item was so far.
fn push_octets(
    out: &mut Vec<u8>,
    word: &[u8],
    octets: &Option<Bytes>,
    first: bool,
) -> Result<bool, AllocError>
    ensures { IfOk result (λ none. WritesItems out.old.items out.new.items first (texts.octets_text word.now octets.now) none) }
{
    let Some(octets) = octets else {
        return Ok(first);
    };
    push_gap(out, first)?;
    out.extend_from_slice(word)?;
    out.push(b' ')?;
    push_literal(out, octets.as_slice())?;
    Ok(false)
}

/// A count of 32 bits as one of 64.
fn wide(count: Option<u32>) -> Option<u64>
    ensures { result ≡ count }
{
    match count {
        Some(count) => Some(u64::from(count)),
        None => None,
    }
}

/// Adds the items that are told.
pub fn push_items(out: &mut Vec<u8>, items: &FetchItems) -> Result<(), AllocError>
    ensures { OnOk result (out.new.items ≡ out.old.items ++ lines.joined (texts.item_texts items.now)) }
{
    let first = push_count(out, b"UID", wide(items.uid), true)?;
    let first = push_flags(out, &items.flags, first)?;
    let first = push_modseq(out, items.modseq, first)?;
    let first = push_internal_date(out, items.date, first)?;
    let first = push_count(out, b"RFC822.SIZE", items.size, first)?;
    let first = push_octets(out, b"BODY[HEADER]<0>", &items.header, first)?;
    let _first = push_octets(out, b"BODY[]<0>", &items.body, first)?;
    Ok(())
}

/// Adds the counts that are told.
pub fn push_counts(out: &mut Vec<u8>, items: &StatusItems) -> Result<(), AllocError>
    ensures { OnOk result (out.new.items ≡ out.old.items ++ lines.joined (texts.count_texts items.now)) }
{
    let first = push_count(out, b"MESSAGES", wide(items.messages), true)?;
    let first = push_count(out, b"UIDNEXT", wide(items.uid_next), first)?;
    let first = push_count(out, b"UIDVALIDITY", wide(items.uid_validity), first)?;
    let _first = push_count(out, b"HIGHESTMODSEQ", items.modseq, first)?;
    Ok(())
}
