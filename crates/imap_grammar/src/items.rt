// The items of a FETCH (RFC 9051 section 7.5.2).
ghost use Rattle.std.specs.Prelude.{◌≡◌, ◌∷◌, [], IfOk, OnOk, map, take};
ghost use Rattle.imap_automaton.specs.ItemRules.{item_start};
ghost use Rattle.imap_types.specs.Items.{no_items};
ghost use Rattle.imap_types.specs.Octets as classes;
ghost use Rattle.imap_grammar.specs.reading.ItemReading as reading;
ghost use Rattle.imap_grammar.specs.reading.Passing as passing;

use imap_automaton::{Key, Sym, WordPlace};
use imap_types::FetchItems;
use imap_values::{
    atom_in, atom_len, before, behind, date_in, digits_len, flags_in, is_key, literal_in, long_of,
    lower, number_of, octet_at, unquoted,
};
use octets::Bytes;
use pushdown::{Stack, advance, marked_by, skip_inside};
use std::alloc::{AllocError, Global};

/// Octets of a date with its quotes.
const DATE_TIME_OCTETS: usize = 28;

/// Octets that are kept of a header.
const MAX_HEADER_OCTETS: usize = 32_768;

/// Octets that are kept of a message.
const MAX_BODY_OCTETS: usize = 50_000_000;

/// What an item of a FETCH tells, by its name.
#[derive(Clone, Copy)]
enum Told {
    Uid,
    Flags,
    ModSeq,
    Date,
    Size,
    Header,
    Body,
}

/// The first n octets of the string at the front, none for NIL, and what follows the string:
/// "NIL" / quoted / ["~"] literal.
#[tactic(auto, unfolding(crate::specs::reading::ItemReading::nstring_in, imap_values::specs::Strings::astring_in))]
fn nstring_in(alloc: Global, bytes: &[u8], most: usize) -> Result<(Bytes, &[u8]), AllocError>
    ensures string { IfOk result (λ r. r.0 ≡ take most (reading.nstring_in bytes.now).0) }
    ensures rest { IfOk result (λ r. r.1.now ≡ (reading.nstring_in bytes.now).1) }
{
    let first = octet_at(bytes, 0);
    if first == b'"' {
        let (mut text, rest) = unquoted(alloc, behind(bytes, 1))?;
        text.truncate(most);
        return Ok((Bytes::from_vec(text)?, rest));
    }
    let (octets, rest) = if lower(first) == b'n' {
        (before(bytes, 0), behind(bytes, 3))
    } else if first == b'{' {
        literal_in(behind(bytes, 1))
    } else if first == b'~' && octet_at(bytes, 1) == b'{' {
        literal_in(behind(bytes, 2))
    } else {
        atom_in(bytes)
    };
    Ok((Bytes::copy_of(alloc, before(octets, most))?, rest))
}

/// What an item of this name tells, where it is told.
#[tactic(auto, unfolding(crate::specs::reading::ItemReading::told_by))]
fn told_by(name: &[u8]) -> Option<Told>
    ensures { result ≡ reading.told_by (map classes.lower name.now) }
{
    if is_key(name, b"uid") {
        Some(Told::Uid)
    } else if is_key(name, b"flags") {
        Some(Told::Flags)
    } else if is_key(name, b"modseq") {
        Some(Told::ModSeq)
    } else if is_key(name, b"internaldate") {
        Some(Told::Date)
    } else if is_key(name, b"rfc822.size") {
        Some(Told::Size)
    } else if is_key(name, b"body[header]") || is_key(name, b"body[header]<0>") {
        Some(Told::Header)
    } else if is_key(name, b"body[]") || is_key(name, b"body[]<0>") {
        Some(Told::Body)
    } else {
        None
    }
}

/// The value of an item, and what follows it: nz for UID, names for FLAGS, "(" long ")" for MODSEQ, date-time for
/// INTERNALDATE, long for RFC822.SIZE, nstring for a header or a body. It takes the place of an earlier one.
#[tactic(auto, unfolding(crate::specs::reading::ItemReading::value_in))]
fn value_in<'a>(
    alloc: Global,
    items: &mut FetchItems,
    told: Told,
    value: &'a [u8],
) -> Result<&'a [u8], AllocError>
    ensures items { OnOk result (items.new ≡ (reading.value_in items.old told value.now).0) }
    ensures rest { IfOk result (λ r. r.now ≡ (reading.value_in items.old told value.now).1) }
{
    match told {
        Told::Uid => {
            let n = digits_len(value);
            items.uid = Some(number_of(before(value, n)));
            Ok(behind(value, n))
        }
        Told::Flags => {
            let (flags, rest) = flags_in(alloc, behind(value, 1))?;
            items.flags = Some(flags);
            Ok(rest)
        }
        Told::ModSeq => {
            let digits = behind(value, 1);
            let n = digits_len(digits);
            items.modseq = Some(long_of(before(digits, n)));
            Ok(behind(digits, n + 1))
        }
        Told::Date => {
            items.date = Some(date_in(value));
            Ok(behind(value, DATE_TIME_OCTETS))
        }
        Told::Size => {
            let n = digits_len(value);
            items.size = Some(long_of(before(value, n)));
            Ok(behind(value, n))
        }
        Told::Header => {
            let (header, rest) = nstring_in(alloc, value, MAX_HEADER_OCTETS)?;
            items.header = Some(header);
            Ok(rest)
        }
        Told::Body => {
            let (body, rest) = nstring_in(alloc, value, MAX_BODY_OCTETS)?;
            items.body = Some(body);
            Ok(rest)
        }
    }
}

/// How many octets an item at the front has.
fn passed(bytes: &[u8]) -> usize
    ensures { result ≡ passing.passed bytes.now (item_start ∷ []) }
{
    let mut stack = Stack::of(Sym::Word(WordPlace::Item, Key::Uid, 0));
    let mut rest = bytes;
    'passing: loop {
        let octets = skip_inside(&mut stack, rest);
        let Some((octet, after)) = octets.split_first() else {
            return bytes.len();
        };
        let marked = marked_by(stack.is_inside(), *octet);
        if !advance(&mut stack, marked) {
            return bytes.len() - octets.len();
        }
        if stack.is_empty() {
            return bytes.len() - after.len();
        }
        rest = after;
    }
}

/// The item at the front, and what follows it: name SP value. One whose name isn't told is passed over.
#[tactic(auto, unfolding(crate::specs::reading::ItemReading::item_in))]
fn item_in<'a>(
    alloc: Global,
    items: &mut FetchItems,
    bytes: &'a [u8],
) -> Result<&'a [u8], AllocError>
    ensures items { OnOk result (items.new ≡ (reading.item_in items.old bytes.now).0) }
    ensures rest { IfOk result (λ r. r.now ≡ (reading.item_in items.old bytes.now).1) }
{
    let n = atom_len(bytes);
    match told_by(before(bytes, n)) {
        Some(told) => value_in(alloc, items, told, behind(bytes, n + 1)),
        None => Ok(behind(bytes, passed(bytes))),
    }
}

/// What the items up to the closing bracket tell, at most n: item *(SP item) ")". A later item takes the place
/// of an earlier one of its name.
#[tactic(auto, unfolding(crate::specs::reading::ItemReading::items_in))]
pub fn items_in(alloc: Global, bytes: &[u8], most: usize) -> Result<FetchItems, AllocError>
    ensures { IfOk result (λ items. items ≡ reading.items_in most no_items bytes.now) }
{
    let mut items = FetchItems {
        uid: None,
        flags: None,
        modseq: None,
        date: None,
        size: None,
        header: None,
        body: None,
    };
    let mut rest = bytes;
    let mut left = most;
    while 0 < left {
        let after = item_in(alloc, &mut items, rest)?;
        if octet_at(after, 0) != b' ' {
            return Ok(items);
        }
        rest = behind(after, 1);
        left -= 1;
    }
    Ok(items)
}
