// The octets of an import, and its APPEND (RFC 8621 section 4.8, RFC 9051 section 6.3.12).
ghost use Rattle.std.specs.Prelude.{◌≡◌, ◌↔◌, IfOk, IsTrue};
ghost use Rattle.email_bodies.specs.declared.error.BodyError.TheVariants.{Memory};
ghost use Rattle.email_get.specs.Asked.{AsksAndMeets};
ghost use Rattle.message_blobs.specs.BlobIds.{root_view};
ghost use Rattle.message_lines.specs.Bodies.{with_crlf};
ghost use Rattle.email_import.specs.Messages as spec;
ghost use Rattle.email_import.specs.Messages.{FindsMessage, IsOfLongEmail};
ghost use Rattle.email_import.specs.reading.Found as found;

use crate::ready::ReadyImport;
use blob_store::BlobStore;
use email_bodies::{BodyError, BodySource};
use email_creation::append_job;
use email_get::find_blob;
use mail_state::MailState;
use message_blobs::{Root, read_blob_id};
use message_lines::with_crlf;
use message_texts::MAX_MESSAGE_OCTETS;
use octets::{Bytes, Listed, Text};
use set_jobs::{Job, SetError};
use std::alloc::{AllocError, Global};

// ---- Emails that are too long

fn is_long_root(state: &MailState, root: Root<'_>) -> bool
    ensures { result ≡ found.is_long_root state.now.rows.numbered.rows (root_view root.entry) }
{
    match root {
        Root::Upload(_) => false,
        Root::Email(number) => match state.email(number) {
            None => false,
            Some(row) => row.size > MAX_MESSAGE_OCTETS,
        },
    }
}

/// Whether the blob is the message of an Email that is too long, or a leaf of one.
fn is_of_long_email(state: &MailState, blob: &[u8]) -> bool
    ensures { IsTrue result ↔ IsOfLongEmail state.now.rows.numbered.rows blob.now }
{
    match read_blob_id(blob) {
        None => false,
        Some(id) => is_long_root(state, id.root),
    }
}

// ---- octets that are found

fn has_zero(octets: &[u8]) -> bool
    ensures { result ≡ spec.has_zero octets.now }
{
    octets.iter().any(|octet| *octet == 0)
}

fn is_no_message(octets: &[u8]) -> bool
    ensures { result ≡ spec.is_no_message octets.now }
{
    octets.is_empty() || has_zero(octets)
}

/// No message is named.
fn no_blob(alloc: Global) -> Result<SetError, AllocError>
    ensures { IfOk result (λ error. error ≡ spec.no_blob) }
{
    let mut properties = Listed::from_vec(Vec::new(alloc));
    properties.push(Text::copy_of(alloc, "blobId")?)?;
    Ok(SetError::InvalidProperties { properties })
}

fn long_error(takes: bool) -> SetError
    ensures { result ≡ found.long_error takes }
{
    if takes {
        SetError::TooLarge
    } else {
        SetError::Forbidden
    }
}

/// Whether an LF stands there without a CR before it.
fn has_bare_lf(octets: &[u8]) -> bool
    ensures { result ≡ found.has_bare_lf octets.now }
{
    let mut behind_cr = false;
    for octet in octets {
        if *octet == b'\n' && !behind_cr {
            return true;
        }
        behind_cr = *octet == b'\r';
    }
    false
}

/// The message that the octets are: its lines end in CR LF. Where they do already the octets are shared.
fn message_of(alloc: Global, octets: Bytes) -> Result<Bytes, AllocError>
    ensures { IfOk result (λ message. message ≡ with_crlf octets) }
{
    if !has_bare_lf(octets.as_slice()) {
        return Ok(octets);
    }
    let message = with_crlf(alloc, octets.as_slice())?;
    Ok(Bytes::from_vec(message)?)
}

fn within_limit(message: Bytes) -> Result<Bytes, SetError>
    ensures { result ≡ found.within_limit message }
{
    if message.as_slice().len() as u64 > MAX_MESSAGE_OCTETS {
        return Err(SetError::TooLarge);
    }
    Ok(message)
}

fn in_folder(
    alloc: Global,
    takes: bool,
    octets: Bytes,
) -> Result<Result<Bytes, SetError>, AllocError>
    ensures { IfOk result (λ came. came ≡ found.in_folder takes octets) }
{
    if !takes {
        return Ok(Err(SetError::Forbidden));
    }
    Ok(within_limit(message_of(alloc, octets)?))
}

/// What octets that are found come to: the message, or, in this order, `InvalidProperties`, `Forbidden`, `TooLarge`.
fn taken(alloc: Global, takes: bool, octets: Bytes) -> Result<Result<Bytes, SetError>, AllocError>
    ensures { IfOk result (λ came. came ≡ found.taken takes octets) }
{
    if is_no_message(octets.as_slice()) {
        return Ok(Err(no_blob(alloc)?));
    }
    in_folder(alloc, takes, octets)
}

/// What there is where the blob isn't found, and where it is.
fn with_found(
    alloc: Global,
    takes: bool,
    octets: Option<Bytes>,
) -> Result<Result<Bytes, SetError>, AllocError>
    ensures { IfOk result (λ came. came ≡ found.with_found takes octets) }
{
    match octets {
        None => Ok(Err(no_blob(alloc)?)),
        Some(octets) => taken(alloc, takes, octets),
    }
}

/// The message of an import, or why it is refused: `InvalidProperties` where the blob that it names isn't found, is empty or has an
/// octet 0, `Forbidden`, `TooLarge`. The body of the Email that the blob is of is asked, once at most, and not where that is too long.
pub fn find_message<W, B: BodySource<W>>(
    alloc: Global,
    state: &MailState,
    uploads: &BlobStore,
    bodies: &mut B,
    world: &mut W,
    ready: &ReadyImport,
) -> Result<Result<Bytes, SetError>, BodyError>
    ensures { AsksAndMeets B.answers B.lacks (bodies.old, world.old) (bodies.new, world.new) Memory (λ r. r) result
        (FindsMessage state.now.rows.numbered.rows uploads.now ready.now) }
{
    let blob = ready.blob.as_str().as_bytes();
    if is_of_long_email(state, blob) {
        return Ok(Err(long_error(ready.takes)));
    }
    let octets = find_blob(alloc, state, uploads, bodies, world, blob)?;
    Ok(with_found(alloc, ready.takes, octets)?)
}

/// The job of an import whose message is there: one APPEND, at the second `now` since 1970-01-01T00:00:00Z where no date is asked.
pub fn import_job(
    alloc: Global,
    ready: ReadyImport,
    now: i64,
    message: Bytes,
) -> Result<Job, AllocError>
    ensures { IfOk result (λ job. job ≡ spec.import_job ready now message) }
{
    let ReadyImport {
        blob: _,
        name,
        takes: _,
        flags,
        date,
    } = ready;
    append_job(alloc, name, flags, date.unwrap_or(now), message)
}
