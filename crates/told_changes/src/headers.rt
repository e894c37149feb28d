// The header of a message that is put into a folder (RFC 9051 section 6.4.5.1).
ghost use Rattle.std.specs.Prelude.{◌≡◌, ◌≤◌, length, take, IfOk};
ghost use Rattle.told_folder.specs.Tell as told;
ghost use Rattle.told_folder.specs.Tell.{whole_lines};
ghost use Rattle.told_changes.specs.Headers as headers;

use octets::Bytes;
use std::alloc::{AllocError, Global};
use text_words::line_end_len;

/// How many octets of a header count.
const MAX_HEADER_OCTETS: usize = 32_768;

const LF: u8 = b'\n';

/// The octets up to the end of the first empty line behind a line's end, or all of them.
fn through_empty_line(octets: &[u8]) -> usize
    ensures value { take result octets.now ≡ headers.through_empty_line octets.now }
    ensures within { result ≤ length octets.now }
{
    let mut at = 0;
    let mut rest = octets;
    while let [first, more @ ..] = rest {
        at += 1;
        if *first == b'\n' {
            let empty = line_end_len(more);
            if 0 < empty {
                return at + empty;
            }
        }
        rest = more;
    }
    at
}

/// The front of the text, of at most so many octets.
fn front(octets: &[u8], most: usize) -> &[u8]
    ensures { result.now ≡ take most octets.now }
{
    if octets.len() <= most {
        return octets;
    }
    let (front, _rest) = octets.split_at(most);
    front
}

/// The header of a message, up to its empty line.
fn header_of(octets: &[u8]) -> &[u8]
    ensures { result.now ≡ headers.header_of octets.now }
{
    let empty = line_end_len(octets);
    let len = if 0 < empty {
        empty
    } else {
        through_empty_line(octets)
    };
    front(octets, len)
}

/// How many octets there are up to the last line end, and with it.
fn whole_lines_len(octets: &[u8]) -> usize
    ensures within { result ≤ length octets.now }
    ensures lines { take result octets.now ≡ whole_lines octets.now }
{
    let mut end = octets.len();
    while 0 < end && octets[end - 1] != LF {
        end -= 1;
    }
    end
}

/// A header without a last line that was cut.
fn kept_header(header: &[u8]) -> &[u8]
    ensures { result.now ≡ told.kept_header header.now }
{
    if header.len() < MAX_HEADER_OCTETS {
        return header;
    }
    let counted = front(header, MAX_HEADER_OCTETS);
    front(counted, whole_lines_len(counted))
}

/// The header of a message, as a folder keeps it.
pub fn header_in(alloc: Global, message: &[u8]) -> Result<Bytes, AllocError>
    ensures { IfOk result (λ header. header ≡ told.kept_header (headers.header_of message.now)) }
{
    Bytes::copy_of(alloc, kept_header(header_of(message)))
}
