// One read or one write of a stream, repeated where a signal broke in: its time then begins anew.
ghost use Rattle.std.specs.Prelude.{◌≢◌, ◌<◌, ◌≤◌, length, IfOk, IfErr};
ghost use Rattle.std.specs.IoError.{error_kind};
ghost use Rattle.std.specs.Io.KnownBytes.{Keeps, ReadConsumes, WriteAppends};

use std::io;
use std::io::{ErrorKind, Read, Write};

/// Reads once, and again where a signal broke in.
pub fn read_once<R: Read>(stream: &mut R, into: &mut [u8]) -> io::Result<usize>
    ensures bound { IfOk result (λ n. n ≤ length into.new) }
    ensures octets { ReadConsumes (R.remaining stream.old) (R.remaining stream.new) result into.new }
{
    'signals: for _ in 0..u64::MAX {
        match stream.read(into) {
            Ok(count) => return Ok(count),
            Err(error) => {
                if error.kind() != ErrorKind::Interrupted {
                    return Err(error);
                }
            }
        }
    }
    Err(io::Error::from(ErrorKind::TimedOut))
}

/// Writes once, and again where a signal broke in.
pub fn write_once<W: Write>(stream: &mut W, from: &[u8]) -> io::Result<usize>
    ensures bound { IfOk result (λ n. n ≤ length from.now) }
    ensures octets { WriteAppends (W.contents stream.old) (W.contents stream.new) result from.now }
{
    'signals: for _ in 0..u64::MAX {
        match stream.write(from) {
            Ok(count) => return Ok(count),
            Err(error) => {
                if error.kind() != ErrorKind::Interrupted {
                    return Err(error);
                }
            }
        }
    }
    Err(io::Error::from(ErrorKind::TimedOut))
}
