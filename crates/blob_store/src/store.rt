// The store of uploads.
ghost use Rattle.std.specs.Prelude.{◌≡◌, ◌<◌, ◌≤◌, ◌↔◌, [], List, ℕ, Err, None, Some, length, IfOk, OnOk, OnErr, MatchOption};
ghost use Rattle.blob_store.specs.Uploads.{blob_id as id_of, octets_in_all, upload_with, AreNewest, TakesUpload};
ghost use Rattle.blob_store.specs.declared.error.BlobError.TheVariants.{TooLarge};

use crate::BlobError;
use crate::blob_id::{BlobId, blob_id};
use crate::uploads::Uploads;
use octets::Bytes;
use std::alloc::Global;
use std::marker::Model;

/// The most octets of one upload.
pub const MAX_UPLOAD_OCTETS: usize = 50_000_000;

/// The most octets that all uploads which are kept have together.
pub const MAX_KEPT_OCTETS: u64 = 200_000_000;

/// The uploads that are kept, oldest first. Contracts see the list of their octets.
#[derive(Drop)]
pub struct BlobStore {
    uploads: Uploads,
    alloc: Global,
}

impl Model for BlobStore {
    ghost use Rattle.std.specs.Prelude.{◌≤◌, List, ℕ};
    ghost use Rattle.blob_store.specs.Uploads.{octets_in_all};
    ghost use Rattle.blob_store.specs.declared.store.TheConstants.{MAX_KEPT_OCTETS};

    ghost Value = { List (List ℕ) };

    ghost view = { λ s. s.uploads };

    ghost invariant = { λ s. octets_in_all s.uploads ≤ MAX_KEPT_OCTETS };
}

impl BlobStore {
    /// A store of no uploads. It takes no memory.
    pub fn new(alloc: Global) -> BlobStore
        ensures { result ≡ [] }
    {
        BlobStore {
            uploads: Uploads::new(alloc),
            alloc,
        }
    }

    /// Takes an upload and gives its id: `u` and the 64 lower-case hexadecimal digits of its SHA-256 digest. Where an
    /// upload with this id is there, nothing moves. Else the oldest are dropped until all have at most
    /// `MAX_KEPT_OCTETS`. A refusal changes nothing.
    pub fn put(&mut self, octets: &[u8]) -> Result<Bytes, BlobError>
        ensures id { IfOk result (λ id. id ≡ id_of octets.now) }
        ensures kept { OnOk result (TakesUpload MAX_KEPT_OCTETS octets.now self.old self.new) }
        ensures too_large { (size : ℕ) → (result ≡ Err (TooLarge size)) ↔ ((size ≡ length octets.now) × (MAX_UPLOAD_OCTETS < size)) }
        ensures refused { OnErr result (self.new ≡ self.old) }
    {
        let size = octets.len();
        if size > MAX_UPLOAD_OCTETS {
            return Err(BlobError::TooLarge { size: size as u64 });
        }
        let id = blob_id(octets);
        let text = Bytes::copy_of(self.alloc, &id)?;
        if self.uploads.with_id(&id).is_none() {
            let copy = Bytes::copy_of(self.alloc, octets)?;
            self.uploads.push(id, copy)?;
            drop_oldest(&mut self.uploads);
        }
        Ok(text)
    }

    /// The octets of the upload with this id. It takes no memory.
    pub fn get(&self, id: &[u8]) -> Option<&Bytes>
        ensures { MatchOption result (upload_with id.now self.now ≡ None) (λ octets. upload_with id.now self.now ≡ Some octets.now) }
    {
        match <BlobId>::try_from(id) {
            Ok(id) => self.uploads.with_id(&id),
            Err(_) => None,
        }
    }
}

/// Drops the oldest uploads until all have at most `MAX_KEPT_OCTETS`.
fn drop_oldest(uploads: &mut Uploads)
    ensures { AreNewest MAX_KEPT_OCTETS uploads.old uploads.new }
{
    while uploads.total() > MAX_KEPT_OCTETS {
        uploads.pop();
    }
}
