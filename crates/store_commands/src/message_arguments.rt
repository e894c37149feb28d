// The arguments of commands on messages by UID, up to the command's end (RFC 9051 section 6.4.9).
ghost use Rattle.std.specs.Prelude.{◌≡◌};
ghost use Rattle.store_commands.specs.reading.Arguments as reading;
ghost use Rattle.store_commands.specs.reading.Asked as asked;
ghost use Rattle.command_parts.specs.reading.Steps.{ReadingGives};

use crate::request::CommandRequest;
use command_parts::{
    Choice, FixedText, Follow, NoCommand, read_choice, read_fixed, read_flags, read_last_name,
    read_number,
};
use imap_values::octet_at;

/// What is fetched from a UID on, by the text that says it.
fn fetched_from(from: u32, items: FixedText) -> CommandRequest<'static>
    ensures { asked.command_asked result ≡ reading.fetched_from from items }
{
    match items {
        FixedText::FlagsOnly => CommandRequest::FetchFlags,
        FixedText::ItemsWithModseq => CommandRequest::FetchNew { from, modseq: true },
        _ => CommandRequest::FetchNew {
            from,
            modseq: false,
        },
    }
}

/// What is fetched from one UID to another, by the text that says it.
fn fetched_slice(from: u32, to: u32, items: FixedText) -> CommandRequest<'static>
    ensures { asked.command_asked result ≡ reading.fetched_slice from to items }
{
    match items {
        FixedText::ItemsWithModseq => CommandRequest::FetchSlice {
            from,
            to,
            modseq: true,
        },
        _ => CommandRequest::FetchSlice {
            from,
            to,
            modseq: false,
        },
    }
}

/// What may be fetched from a UID on: of all messages also their flags alone.
fn items_from(from: u32) -> Choice
    ensures { result ≡ reading.items_from from }
{
    if from == 1 {
        Choice::AllItems
    } else {
        Choice::Items
    }
}

/// What follows the colon of a range that has no end.
#[tactic(auto, unfolding(crate::specs::reading::Arguments::open_range_at))]
fn open_range(from: u32, bytes: &[u8]) -> Result<(CommandRequest, &[u8]), NoCommand>
    ensures { ReadingGives (λ x. (asked.command_asked x.0, x.1.now)) result (reading.open_range_at from bytes.now) }
{
    let (_, rest) = read_fixed(FixedText::LastUid, bytes)?;
    let (items, rest) = read_choice(items_from(from), rest)?;
    Ok((fetched_from(from, items), rest))
}

/// What follows the colon of a range: "*" or a number, SP and the items.
#[tactic(auto, unfolding(crate::specs::reading::Arguments::range_at, crate::specs::reading::Arguments::closed_range_at))]
fn range(from: u32, bytes: &[u8]) -> Result<(CommandRequest, &[u8]), NoCommand>
    ensures { ReadingGives (λ x. (asked.command_asked x.0, x.1.now)) result (reading.range_at from bytes.now) }
{
    if octet_at(bytes, 0) == b'*' {
        return open_range(from, bytes);
    }
    let ((to, _), rest) = read_number(bytes, Follow::Space)?;
    let (items, rest) = read_choice(Choice::Items, rest)?;
    Ok((fetched_slice(from, to, items), rest))
}

/// A UID or a range of UIDs, and what is fetched.
#[tactic(auto, unfolding(crate::specs::reading::Arguments::fetch_at, crate::specs::reading::Arguments::fetched_at, crate::specs::reading::Arguments::body_at))]
pub fn fetch(bytes: &[u8]) -> Result<(CommandRequest, &[u8]), NoCommand>
    ensures { ReadingGives (λ x. (asked.command_asked x.0, x.1.now)) result (reading.fetch_at bytes.now) }
{
    let ((uid, end), rest) = read_number(bytes, Follow::ColonOrSpace)?;
    if end == b':' {
        return range(uid, rest);
    }
    let (_, rest) = read_fixed(FixedText::Body, rest)?;
    Ok((CommandRequest::FetchBody { uid }, rest))
}

/// Whether the flags are set, and not taken.
fn is_add(change: FixedText) -> bool
    ensures { result ≡ reading.is_add change }
{
    matches!(change, FixedText::Add)
}

/// A UID, and flags that are set or taken.
#[tactic(auto, unfolding(crate::specs::reading::Arguments::store_at))]
pub fn store(bytes: &[u8]) -> Result<(CommandRequest, &[u8]), NoCommand>
    ensures { ReadingGives (λ x. (asked.command_asked x.0, x.1.now)) result (reading.store_at bytes.now) }
{
    let ((uid, _), rest) = read_number(bytes, Follow::Space)?;
    let (change, rest) = read_choice(Choice::Changes, rest)?;
    let (flags, rest) = read_flags(rest)?;
    let (_, rest) = read_fixed(FixedText::LineEnd, rest)?;
    let add = is_add(change);
    Ok((CommandRequest::Store { uid, add, flags }, rest))
}

/// A UID and a folder's name.
#[tactic(auto, unfolding(crate::specs::reading::Arguments::move_at))]
pub fn move_to(bytes: &[u8]) -> Result<(CommandRequest, &[u8]), NoCommand>
    ensures { ReadingGives (λ x. (asked.command_asked x.0, x.1.now)) result (reading.move_at bytes.now) }
{
    let ((uid, _), rest) = read_number(bytes, Follow::Space)?;
    let (name, rest) = read_last_name(rest)?;
    Ok((CommandRequest::Move { uid, name }, rest))
}

/// A UID.
#[tactic(auto, unfolding(crate::specs::reading::Arguments::expunge_at))]
pub fn expunge(bytes: &[u8]) -> Result<(CommandRequest, &[u8]), NoCommand>
    ensures { ReadingGives (λ x. (asked.command_asked x.0, x.1.now)) result (reading.expunge_at bytes.now) }
{
    let ((uid, _), rest) = read_number(bytes, Follow::Line)?;
    let (_, rest) = read_fixed(FixedText::LineFeed, rest)?;
    Ok((CommandRequest::Expunge { uid }, rest))
}
