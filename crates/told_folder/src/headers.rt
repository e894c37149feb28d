// Headers that were cut.
ghost use Rattle.std.specs.Prelude.{◌≡◌, ◌<◌, ◌≤◌, ℕ, IfOk, length, take};
ghost use Rattle.told_folder.specs.Tell as told;
ghost use Rattle.told_folder.specs.Tell.{whole_lines};

use octets::Bytes;
use std::alloc::{AllocError, Global};

/// How many octets of a header count.
pub const MAX_HEADER_OCTETS: usize = 32_768;

const LF: u8 = b'\n';

/// How many octets there are up to the last line end, and with it.
fn whole_lines_len(octets: &[u8]) -> usize
    ensures within { result ≤ length octets.now }
    ensures lines { take result octets.now ≡ whole_lines octets.now }
{
    let mut end = octets.len();
    while 0 < end && octets[end - 1] != LF {
        end -= 1;
    }
    end
}

/// A header without a last line that was cut.
pub fn kept_header(alloc: Global, header: &Bytes) -> Result<Bytes, AllocError>
    ensures { IfOk result (λ b. b ≡ told.kept_header header.now) }
{
    let octets = header.as_slice();
    if octets.len() < MAX_HEADER_OCTETS {
        return header.share();
    }
    let counted = octets.split_at(MAX_HEADER_OCTETS).0;
    let end = whole_lines_len(counted);
    Bytes::copy_of(alloc, counted.split_at(end).0)
}
