// Uploads in the order in which they came, each found by its id.
ghost use Rattle.std.specs.Prelude.{◌≡◌, ◌+◌, ◌<◌, ◌≤◌, ◌^◌, [], ◌∷◌, ◌++◌, List, ℕ, None, Some, length, OnOk, OnErr, MatchOption};
ghost use Rattle.blob_store.specs.Uploads.{blob_id as id_of, octets_in_all, upload_with};

use crate::blob_id::BlobId;
use indexmap::IndexMap;
use octets::Bytes;
use std::alloc::{AllocError, Global};
use std::collections::VecDeque;
use std::marker::Model;

/// Uploads, oldest first; no two have the same id.
#[derive(Drop)]
pub struct Uploads {
    octets: IndexMap<BlobId, Bytes>,
    ids: VecDeque<BlobId>,
    total: u64,
}

impl Model for Uploads {
    ghost use Rattle.std.specs.Prelude.{◌≡◌, ◌==◌, List, ℕ};
    ghost use Rattle.std.specs.Cmp.Lexicographic.{pointwise};
    ghost use Rattle.indexmap.specs.IndexMap.{get};
    ghost use Rattle.blob_store.specs.reading.Kept.{gathered, AreKept};
    ghost use Rattle.blob_store.specs.Uploads.{octets_in_all};

    ghost Value = { List (List ℕ) };

    ghost view = { λ u. gathered (get (pointwise ◌==◌) u.octets) u.ids.items };

    ghost invariant = { λ u. AreKept (get (pointwise ◌==◌) u.octets) u.ids.items
        × (u.total ≡ octets_in_all (gathered (get (pointwise ◌==◌) u.octets) u.ids.items)) };
}

impl Uploads {
    /// No uploads. It takes no memory.
    pub fn new(alloc: Global) -> Uploads
        ensures { result ≡ [] }
    {
        Uploads {
            octets: IndexMap::new(alloc),
            ids: VecDeque::new(alloc),
            total: 0,
        }
    }

    /// How many octets they have together.
    pub fn total(&self) -> u64
        ensures { result ≡ octets_in_all self.now }
    {
        self.total
    }

    /// The octets of the upload with this id.
    pub fn with_id(&self, id: &BlobId) -> Option<&Bytes>
        ensures { MatchOption result (upload_with id.now self.now ≡ None) (λ octets. upload_with id.now self.now ≡ Some octets.now) }
    {
        self.octets.get(id)
    }

    /// Adds an upload as the newest, under its id, which none has yet. A refusal changes nothing.
    pub fn push(&mut self, id: BlobId, octets: Bytes) -> Result<(), AllocError>
        requires id { id ≡ id_of octets }
        requires new { upload_with id self.old ≡ None }
        requires small { octets_in_all self.old + length octets < 2 ^ 64 }
        ensures ok { OnOk result (self.new ≡ self.old ++ octets ∷ []) }
        ensures err { OnErr result (self.new ≡ self.old) }
    {
        let size = octets.as_slice().len() as u64;
        self.ids.reserve(1)?;
        self.octets.insert(id, octets)?;
        self.ids.push_back(id)?;
        self.total += size;
        Ok(())
    }

    /// Drops the oldest upload, where there is one. It takes no memory.
    pub fn pop(&mut self)
        ensures none { self.old ≡ [] → self.new ≡ [] }
        ensures oldest { (octets : List ℕ) → (rest : List (List ℕ)) → self.old ≡ octets ∷ rest → self.new ≡ rest }
        ensures fewer { octets_in_all self.new ≤ octets_in_all self.old }
    {
        let Some(id) = self.ids.pop_front() else {
            return;
        };
        if let Some(octets) = self.octets.swap_remove(&id) {
            self.total -= octets.as_slice().len() as u64;
        }
    }
}
