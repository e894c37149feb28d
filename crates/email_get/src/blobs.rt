// The octets that a blob id names.
ghost use Rattle.std.specs.Prelude.{◌≡◌, ℕ, List, IfOk, MatchOption};
ghost use Rattle.std.specs.Option.{option_copied};
ghost use Rattle.email_bodies.specs.declared.error.BodyError.TheVariants.{Memory};
ghost use Rattle.message_blobs.specs.BlobIds.{root_view};
ghost use Rattle.message_blobs.specs.NestedLeaves.{NamesOctets};
ghost use Rattle.email_get.specs.Asked as spec;
ghost use Rattle.email_get.specs.Asked.{AsksAndMeets};
ghost use Rattle.email_get.specs.Blobs.{FindsRoot, FindsOctets, FindsBlob};

use blob_store::BlobStore;
use email_bodies::{BodyError, BodySource, MessagePlace};
use mail_maps::EmailRow;
use mail_state::MailState;
use message_blobs::{BlobId, ReadBlob, Root, read_blob_id};
use octets::Bytes;
use std::alloc::{AllocError, Global};

/// The octets of an upload, shared.
fn upload_octets(octets: Option<&Bytes>) -> Result<Option<Bytes>, AllocError>
    ensures { IfOk result (λ shared. shared ≡ option_copied octets.entry) }
{
    match octets {
        None => Ok(None),
        Some(octets) => Ok(Some(octets.share()?)),
    }
}

/// Where the message of an Email is asked.
pub(crate) fn place_of(row: &EmailRow) -> MessagePlace
    ensures { result ≡ spec.place_of row.now }
{
    MessagePlace {
        email: row.number,
        folder: row.folder,
        uid: row.uid,
    }
}

/// The octets of a root.
fn root_octets<W, B: BodySource<W>>(
    state: &MailState,
    blobs: &BlobStore,
    bodies: &mut B,
    world: &mut W,
    root: Root<'_>,
) -> Result<Option<Bytes>, BodyError>
    ensures { AsksAndMeets B.answers B.lacks (bodies.old, world.old) (bodies.new, world.new) Memory (λ o. o) result
        (FindsRoot state.now.rows.numbered.rows blobs.now (root_view root.entry)) }
{
    match root {
        Root::Upload(id) => Ok(upload_octets(blobs.get(id))?),
        Root::Email(number) => match state.email(number) {
            None => Ok(None),
            Some(row) => Ok(Some(bodies.body(world, place_of(row))?)),
        },
    }
}

/// These octets, as they were read last where those were the same.
fn blob_of(last: Option<ReadBlob>, octets: Bytes) -> ReadBlob
    ensures { result ≡ octets }
{
    match last {
        None => ReadBlob::new(octets),
        Some(blob) => {
            if blob.is_of(&octets) {
                blob
            } else {
                ReadBlob::new(octets)
            }
        }
    }
}

/// The octets that the numbers of leaves name in these, which are what was read last then.
fn leaf_of(
    alloc: Global,
    last: &mut Option<ReadBlob>,
    octets: Bytes,
    leaves: &[u64],
) -> Result<Option<Bytes>, AllocError>
    ensures { IfOk result (λ found. MatchOption found
        ((s : List ℕ) → NamesOctets leaves.now octets s → ⊥)
        (λ s. NamesOctets leaves.now octets s)) }
{
    let mut blob = blob_of(last.take(), octets);
    let found = blob.leaf_octets(alloc, leaves)?;
    *last = Some(blob);
    Ok(found)
}

/// The octets of a blob. What was read of the last one serves where this one begins in the same octets.
pub(crate) fn blob_octets<W, B: BodySource<W>>(
    alloc: Global,
    state: &MailState,
    blobs: &BlobStore,
    bodies: &mut B,
    world: &mut W,
    last: &mut Option<ReadBlob>,
    id: &BlobId<'_>,
) -> Result<Option<Bytes>, BodyError>
    ensures { AsksAndMeets B.answers B.lacks (bodies.old, world.old) (bodies.new, world.new) Memory (λ o. o) result
        (FindsOctets state.now.rows.numbered.rows blobs.now (root_view id.now.root) id.now.leaves.items) }
{
    match root_octets(state, blobs, bodies, world, id.root)? {
        None => Ok(None),
        Some(octets) => Ok(leaf_of(alloc, last, octets, id.leaves.as_slice())?),
    }
}

/// The octets that a blob id names: the message of an Email, an upload, or a leaf within one. None where the text is no blob id, and
/// where there is no such Email, upload or leaf. The body of the Email alone is asked, once.
pub fn find_blob<W, B: BodySource<W>>(
    alloc: Global,
    state: &MailState,
    blobs: &BlobStore,
    bodies: &mut B,
    world: &mut W,
    id: &[u8],
) -> Result<Option<Bytes>, BodyError>
    ensures { AsksAndMeets B.answers B.lacks (bodies.old, world.old) (bodies.new, world.new) Memory (λ o. o) result
        (FindsBlob state.now.rows.numbered.rows blobs.now id.now) }
{
    match read_blob_id(id) {
        None => Ok(None),
        Some(id) => {
            let mut last = None;
            blob_octets(alloc, state, blobs, bodies, world, &mut last, &id)
        }
    }
}
