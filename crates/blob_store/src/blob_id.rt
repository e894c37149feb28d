// The id of an upload.
ghost use Rattle.std.specs.Prelude.{◌≡◌};
ghost use Rattle.blob_store.specs.Uploads.{blob_id as id_of};

use sha2::{Digest, Sha256};

/// `u` and the 64 digits of a SHA-256 digest.
pub type BlobId = [u8; 65];

/// The id of an upload with these octets. It takes no memory.
pub fn blob_id(octets: &[u8]) -> BlobId
    ensures { result ≡ id_of octets.now }
{
    let digest: [u8; 32] = Sha256::digest(octets);
    let mut id = [b'u'; 65];
    let (_, digits) = id.split_at_mut(1);
    let _ = hex::encode_to_slice(digest, digits);
    id
}
