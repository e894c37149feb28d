// Uploads that may be kept.
ghost use Rattle.std.specs.Prelude.{◌≡◌, ◌<◌, ◌≤◌, length, MatchOption};
ghost use Rattle.blob_store.specs.declared.store.TheConstants.{MAX_UPLOAD_OCTETS};

use blob_store::MAX_UPLOAD_OCTETS;
use octets::{Bytes, Text};

/// Octets that are to be kept, and their type.
#[derive(Drop)]
pub struct Upload {
    /// As the client named it, or `application/octet-stream`.
    pub media: Text,
    /// At most `MAX_UPLOAD_OCTETS`.
    pub octets: Bytes,
    /// What `new` makes sure of.
    ghost fits: { length octets ≤ MAX_UPLOAD_OCTETS },
}

impl Upload {
    /// An upload, where it has no more octets than one may have.
    pub fn new(media: Text, octets: Bytes) -> Option<Upload>
        ensures { MatchOption result (MAX_UPLOAD_OCTETS < length octets) (λ upload. (upload.media ≡ media) × (upload.octets ≡ octets)
            × (length octets ≤ MAX_UPLOAD_OCTETS)) }
    {
        if octets.as_slice().len() > MAX_UPLOAD_OCTETS {
            return None;
        }
        Some(Upload { media, octets })
    }
}
