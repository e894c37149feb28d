// Laws of blob ids and of the octets that they name.
ghost use Rattle.std.specs.Prelude.{◌≡◌, ◌<◌, ◌≤◌, ◌^◌, [], ◌∷◌, ◌++◌, ℕ, List, length};
ghost use Rattle.blob_store.specs.Uploads.{blob_id};
ghost use Rattle.message_blobs.specs.BlobIds.{BlobRoot, IsBlobId, OfUpload, leaf_text};
ghost use Rattle.message_blobs.specs.NestedLeaves.{NamesOctets};
ghost use Rattle.message_blobs.specs.declared.leaf_numbers.TheConstants.{MAX_LEAVES};

/// No text is two blob ids.
pub fn one_blob_id()
    ensures root { (r s : BlobRoot) (ns ms : List ℕ) (text : List ℕ) → IsBlobId r ns text → IsBlobId s ms text → r ≡ s }
    ensures leaves { (r s : BlobRoot) (ns ms : List ℕ) (text : List ℕ) → IsBlobId r ns text → IsBlobId s ms text → ns ≡ ms }
{}

/// The text that a leaf has as its blob id, that of the octets in which it stands with the leaf's number behind it, is one as long as
/// these octets are named by fewer than `MAX_LEAVES` numbers.
pub fn leaves_have_blob_ids()
    ensures { (root : BlobRoot) (ns : List ℕ) (n : ℕ) (text : List ℕ) → IsBlobId root ns text → length ns < MAX_LEAVES → 1 ≤ n → n < 2 ^ 64
        → IsBlobId root (ns ++ n ∷ []) (text ++ leaf_text n) }
{}

/// The id of each upload is a blob id.
pub fn uploads_have_blob_ids()
    ensures { (octets : List ℕ) → IsBlobId (OfUpload (blob_id octets)) [] (blob_id octets) }
{}

/// Numbers of leaves name the octets of one leaf at most.
pub fn one_leaf_named()
    ensures { (ns b s t : List ℕ) → NamesOctets ns b s → NamesOctets ns b t → s ≡ t }
{}
