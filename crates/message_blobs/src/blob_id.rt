// Blob ids: a root, and numbers of leaves.
ghost use Rattle.std.specs.Prelude.{◌≡◌, ◌≢◌, ◌↔◌, ℕ, List, IsTrue, MatchOption};
ghost use Rattle.message_blobs.specs.BlobIds as spec;
ghost use Rattle.message_blobs.specs.BlobIds.{BlobRoot, IsBlobId, IsRoot, IsUploadId, root_text, root_view};

use crate::leaf_numbers::{BeforeMark, MAX_LEAVES, number_behind, numbers_in};
use arrayvec::ArrayVec;
use text_words::{Class, are_all, behind, cut};

/// What the root of an Email begins with; the number of the Email follows in decimal.
pub const EMAIL_ROOT: char = 'r';

/// What the root of an upload begins with; the digits of its digest follow.
const UPLOAD_ROOT: u8 = b'u';

/// How many hexadecimal digits a SHA-256 digest has.
const DIGEST_DIGITS: usize = 64;

/// The octets that a blob id begins in.
#[derive(Clone, Copy, Debug)]
pub enum Root<'a> {
    /// The message of the Email with this number.
    Email(u64),
    /// The upload with this id, which is `u` and 64 lower-case hexadecimal digits.
    Upload(&'a [u8]),
}

/// A blob id (RFC 8620 section 1.2): octets, and a leaf within them where numbers follow.
#[derive(Drop)]
pub struct BlobId<'a> {
    /// The octets in which the leaves stand.
    pub root: Root<'a>,
    /// The numbers of leaves, from 1 up: the first one's in the root, each further one's in the leaf before it, which is read as a
    /// message.
    pub leaves: ArrayVec<u64, MAX_LEAVES>,
}

/// The lower-case hexadecimal digits.
struct LowerHex;

impl Class<u8> for LowerHex {
    ghost test = { spec.is_lower_hex };

    fn has(&self, item: &u8) -> bool {
        (b'0' <= *item && *item <= b'9') || (b'a' <= *item && *item <= b'f')
    }
}

/// Whether the text is one that uploads have as their id.
fn is_upload_id(text: &[u8]) -> bool
    ensures { IsTrue result ↔ IsUploadId text.now }
{
    match behind(UPLOAD_ROOT, text) {
        None => false,
        Some(digits) => digits.len() == DIGEST_DIGITS && are_all(&LowerHex, digits),
    }
}

/// The root that the text is.
fn read_root(text: &[u8]) -> Option<Root<'_>>
    ensures { MatchOption result
        ((root : BlobRoot) → IsRoot root → text.now ≢ root_text root)
        (λ root. IsRoot (root_view root) × (text.now ≡ root_text (root_view root))) }
{
    if is_upload_id(text) {
        return Some(Root::Upload(text));
    }
    match number_behind(EMAIL_ROOT, text) {
        None => None,
        Some(number) => Some(Root::Email(number)),
    }
}

/// The blob id that the text is, where it is one: a root, and up to `MAX_LEAVES` numbers of leaves, each behind a `-`. It takes no
/// memory.
pub fn read_blob_id(text: &[u8]) -> Option<BlobId<'_>>
    ensures { MatchOption result
        ((root : BlobRoot) (leaves : List ℕ) → IsBlobId root leaves text.now → ⊥)
        (λ id. IsBlobId (root_view id.root) id.leaves.items text.now) }
{
    let (root, rest) = cut(&BeforeMark, text);
    let root = read_root(root)?;
    let leaves = numbers_in(rest)?;
    Some(BlobId { root, leaves })
}
