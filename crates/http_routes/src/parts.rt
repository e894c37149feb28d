// Parts of a path, which slashes divide, and their escapes.
ghost use Rattle.std.specs.Prelude.{◌≡◌, IfOk};
ghost use Rattle.http_routes.specs.reading.Parts as spec;
ghost use Rattle.percent_encoding.specs.Percent as percent;

use crate::cutting::{after, before};
use octets::Bytes;
use percent_encoding::percent_decode;
use std::alloc::{AllocError, Global};

/// What stands in a path after `/`, a word, `/`, a word and `/`.
fn after_words(path: &str) -> &str
    ensures { result.now ≡ spec.after_words path.now }
{
    after(after(after(path, '/'), '/'), '/')
}

/// The part that names the account.
pub(crate) fn account_part(path: &str) -> &str
    ensures { result.now ≡ spec.account_part path.now }
{
    before(after_words(path), '/')
}

/// The part that names the blob of a download.
pub(crate) fn blob_part(path: &str) -> &str
    ensures { result.now ≡ spec.blob_part path.now }
{
    before(after(after_words(path), '/'), '/')
}

/// The part that names the file of a download.
pub(crate) fn name_part(path: &str) -> &str
    ensures { result.now ≡ spec.name_part path.now }
{
    after(after(after_words(path), '/'), '/')
}

/// A part with its escapes undone.
pub(crate) fn decoded(alloc: Global, part: &str) -> Result<Bytes, AllocError>
    ensures { IfOk result (λ octets. octets ≡ percent.percent_decode part.now) }
{
    let mut octets = Vec::new(alloc);
    percent_decode(part.as_bytes()).append_to(&mut octets)?;
    Bytes::from_vec(octets)
}
