// Blob ids, and the octets that they name.
use crate::written::put_octets;
use message_blobs::{ReadBlob, Root, read_blob_id};
use octets::Bytes;
use std::alloc::{AllocError, Global};

fn put_begun(out: &mut String, root: Root<'_>) -> Result<(), AllocError> {
    match root {
        Root::Email(number) => write!(out, "email {number}"),
        Root::Upload(id) => {
            out.push_str("upload ")?;
            put_octets(out, id)
        }
    }
}

/// Adds what a blob id is: where it begins, and the leaves that it names.
pub(crate) fn put_id(text: &[u8], out: &mut String) -> Result<(), AllocError> {
    match read_blob_id(text) {
        None => out.push('-'),
        Some(id) => {
            put_begun(out, id.root)?;
            write!(out, " {:?}", id.leaves.as_slice())
        }
    }
}

/// The octets that the blob id names, where the message or upload that it begins in is this blob.
fn named(alloc: Global, blob: &mut ReadBlob, id: &str) -> Result<Option<Bytes>, AllocError> {
    match read_blob_id(id.as_bytes()) {
        None => Ok(None),
        Some(id) => blob.leaf_octets(alloc, id.leaves.as_slice()),
    }
}

fn put_found(found: Option<Bytes>, out: &mut String) -> Result<(), AllocError> {
    match found {
        None => out.push('-'),
        Some(octets) => put_octets(out, octets.as_slice()),
    }
}

/// Adds those octets for each of these ids, which are asked one after another; ` / ` stands between them.
pub(crate) fn put_named(
    alloc: Global,
    ids: &str,
    octets: &[u8],
    out: &mut String,
) -> Result<(), AllocError> {
    let mut blob = ReadBlob::new(Bytes::copy_of(alloc, octets)?);
    for (at, id) in ids.split(' ').enumerate() {
        if at > 0 {
            out.push_str(" / ")?;
        }
        put_found(named(alloc, &mut blob, id)?, out)?;
    }
    Ok(())
}
