// The octets that a part spells.
ghost use Rattle.std.specs.Prelude.{IfOk};
ghost use Rattle.mime_tree.specs.Bodies.{HasLen, HasOctets};
ghost use Rattle.mime_tree.specs.Parts.{IsWithin};

use crate::part::Part;
use header_words::{decode_transfer, transfer_len};
use std::alloc::{AllocError, Global};

/// The octets that a part's body spells in its transfer encoding, and whether that has a problem, as `decode_transfer`
/// says. The part is one of the tree of these octets.
pub fn part_bytes(alloc: Global, bytes: &[u8], part: &Part) -> Result<(Vec<u8>, bool), AllocError>
    requires { IsWithin part.now bytes.now }
    ensures { IfOk result (λ r. HasOctets part.now bytes.now r.0.items r.1) }
{
    let body = &bytes[part.start..part.end];
    match part.number {
        None => Ok((Vec::from_slice(alloc, body)?, false)),
        Some(_) => decode_transfer(alloc, part.encoding.as_slice(), body),
    }
}

/// How many octets `part_bytes` gives of a part. It takes no memory.
pub fn part_len(bytes: &[u8], part: &Part) -> usize
    requires { IsWithin part.now bytes.now }
    ensures { HasLen part.now bytes.now result }
{
    let body = &bytes[part.start..part.end];
    match part.number {
        None => body.len(),
        Some(_) => transfer_len(part.encoding.as_slice(), body),
    }
}
