// A read or a write of a stream that comes to an octet at least.
ghost use Rattle.std.specs.Prelude.{◌<◌, ◌≤◌, length, take, IfSome, IfNone};
ghost use Rattle.std.specs.Io.KnownBytes.{Appends, Consumes, Keeps};

use client_front::{read_once, write_once};
use std::io::{Read, Write};

/// The count of a read that gave an octet at least. A stream that has ended gives none.
pub(crate) fn read_some<R: Read>(stream: &mut R, into: &mut [u8]) -> Option<usize>
    ensures bound { IfSome result (λ n. (0 < n) × (n ≤ length into.new)) }
    ensures octets { IfSome result (λ n. Consumes (R.remaining stream.old) (R.remaining stream.new) (take n into.new)) }
{
    match read_once(stream, into) {
        Ok(0) => None,
        Ok(count) => Some(count),
        Err(_) => None,
    }
}

/// The count of a write that took an octet at least.
pub(crate) fn write_some<W: Write>(stream: &mut W, from: &[u8]) -> Option<usize>
    ensures bound { IfSome result (λ n. (0 < n) × (n ≤ length from.now)) }
    ensures octets { IfSome result (λ n. Appends (W.contents stream.old) (W.contents stream.new) (take n from.now)) }
    ensures none { IfNone result (Keeps (W.contents stream.old) (W.contents stream.new)) }
{
    match write_once(stream, from) {
        Ok(0) => None,
        Ok(count) => Some(count),
        Err(_) => None,
    }
}
