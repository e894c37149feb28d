// What fetches tell of messages (RFC 9051 sections 6.4.5 and 7.5.2).
ghost use Rattle.std.specs.Prelude.{◌≡◌, ◌<◌, ◌+◌, ◌++◌, ℕ, IfOk, OnOk, Some, None, length, map, filter, if◌then◌else◌};
ghost use Rattle.imap_types.specs.declared.response.Response.TheVariants as response;
ghost use Rattle.imap_types.specs.Items.{no_items};
ghost use Rattle.honest_store.specs.WellFormed.{AscendByUid};
ghost use Rattle.small_answers.specs.ToldResponses as told;
ghost use Rattle.small_store.specs.reading.Fetches as fetches;

use imap_types::{FetchItems, Response};
use octets::{Bytes, Names};
use small_mail::StoredMessage;
use small_mail::headers::{body_told, header_told};
use std::alloc::{AllocError, Global};

/// What is told of each message.
#[derive(Clone, Copy, Debug)]
pub enum Asked {
    Flags,
    /// Flags and mod-sequence.
    Change,
    Header { with_modseq: bool },
    Body,
}

/// Which messages are told of.
#[derive(Clone, Copy, Debug)]
pub enum Which {
    All,
    /// Those whose UIDs are from one to another, which stand in either order (RFC 9051 section 9, seq-range).
    Range { from: u32, to: u32 },
    /// Those whose UIDs are from one on, and the last one (RFC 9051 section 9, seq-range).
    FromOn { from: u32, last: u32 },
    One { uid: u32 },
    /// Those that changed since the mod-sequence.
    ChangedSince { modseq: u64 },
}

/// Whether the message is told of.
fn is_asked(which: Which, message: &StoredMessage) -> bool
    ensures { result ≡ fetches.is_asked which message.now }
{
    match which {
        Which::All => true,
        Which::Range { from, to } => {
            from.min(to) <= message.uid() && message.uid() <= from.max(to)
        }
        Which::FromOn { from, last } => from <= message.uid() || message.uid() == last,
        Which::One { uid } => message.uid() == uid,
        Which::ChangedSince { modseq } => modseq < message.modseq(),
    }
}

/// The greatest UID; 0 where there is no message.
pub fn greatest_uid(messages: &[StoredMessage]) -> u32
    ensures { result ≡ told.greatest_uid messages.now }
{
    let mut greatest: u32 = 0;
    for message in messages {
        greatest = greatest.max(message.uid());
    }
    greatest
}

/// Flags, and the mod-sequence where it is asked for.
pub fn flag_items(uid: u32, flags: Names, modseq: Option<u64>) -> FetchItems
    ensures { result ≡ record no_items { uid = Some uid; flags = Some flags; modseq = modseq } }
{
    FetchItems {
        uid: Some(uid),
        flags: Some(flags),
        modseq,
        date: None,
        size: None,
        header: None,
        body: None,
    }
}

fn header_items(
    alloc: Global,
    message: &StoredMessage,
    with_modseq: bool,
) -> Result<FetchItems, AllocError>
    ensures { IfOk result (λ items. items ≡ fetches.items_of (fetches.asked.Header with_modseq) message.now) }
{
    let flags = message.flags().share(alloc)?;
    let header = Bytes::copy_of(alloc, header_told(message.octets()))?;
    let modseq = if with_modseq {
        Some(message.modseq())
    } else {
        None
    };
    Ok(FetchItems {
        uid: Some(message.uid()),
        flags: Some(flags),
        modseq,
        date: Some(message.date()),
        size: Some(message.size()),
        header: Some(header),
        body: None,
    })
}

fn body_items(alloc: Global, message: &StoredMessage) -> Result<FetchItems, AllocError>
    ensures { IfOk result (λ items. items ≡ fetches.items_of fetches.asked.Body message.now) }
{
    let body = Bytes::copy_of(alloc, body_told(message.octets()))?;
    Ok(FetchItems {
        uid: Some(message.uid()),
        flags: None,
        modseq: None,
        date: None,
        size: None,
        header: None,
        body: Some(body),
    })
}

/// What is told of the message.
fn items_of(alloc: Global, message: &StoredMessage, asked: Asked) -> Result<FetchItems, AllocError>
    ensures { IfOk result (λ items. items ≡ fetches.items_of asked message.now) }
{
    match asked {
        Asked::Flags => {
            let flags = message.flags().share(alloc)?;
            Ok(flag_items(message.uid(), flags, None))
        }
        Asked::Change => {
            let flags = message.flags().share(alloc)?;
            Ok(flag_items(message.uid(), flags, Some(message.modseq())))
        }
        Asked::Header { with_modseq } => header_items(alloc, message, with_modseq),
        Asked::Body => body_items(alloc, message),
    }
}

/// The sequence number of the message at the place.
pub fn sequence_number(at: usize) -> u32
    requires { at + 1 < 4294967296 }
    ensures { result ≡ at + 1 }
{
    (at + 1) as u32
}

/// Adds a FETCH of the message at the place, where it is asked for.
fn push_fetch(
    alloc: Global,
    responses: &mut Vec<Response>,
    at: usize,
    message: &StoredMessage,
    which: Which,
    asked: Asked,
) -> Result<(), AllocError>
    requires { at + 1 < 4294967296 }
    ensures { OnOk result (responses.new.items ≡ responses.old.items ++ fetches.told_at which asked (at + 1) message.now) }
{
    if is_asked(which, message) {
        let items = items_of(alloc, message, asked)?;
        let seq = sequence_number(at);
        responses.push(Response::Fetch { seq, items })?;
    }
    Ok(())
}

/// Adds a FETCH of each message that is asked for, in order.
pub fn push_fetches(
    alloc: Global,
    responses: &mut Vec<Response>,
    messages: &[StoredMessage],
    which: Which,
    asked: Asked,
) -> Result<(), AllocError>
    requires count { length messages.now < 4294967296 }
    requires order { AscendByUid 0 messages.now }
    ensures { OnOk result (responses.new.items
        ≡ responses.old.items ++ map (fetches.response_of asked messages.now) (filter (fetches.is_asked which) messages.now)) }
{
    for (at, message) in messages.iter().enumerate() {
        push_fetch(alloc, responses, at, message, which, asked)?;
    }
    Ok(())
}
