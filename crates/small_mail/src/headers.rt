// The header of a message (RFC 9051 section 6.4.5.1).
ghost use Rattle.std.specs.Prelude.{◌≡◌, ◌≤◌, length, take};
ghost use Rattle.imap_types.specs.Items.{body_limit};
ghost use Rattle.honest_store.specs.Headers as headers;

use text_words::line_end_len;

/// How much of a header is told, in octets.
pub const MAX_HEADER_OCTETS: usize = 32_768;

/// How much of a message is told, in octets.
pub const MAX_BODY_OCTETS: usize = 50_000_000;

/// The octets up to the end of the first empty line behind a line's end, or all of them.
fn through_empty_line(octets: &[u8]) -> usize
    ensures value { take result octets.now ≡ headers.through_empty_line octets.now }
    ensures within { result ≤ length octets.now }
{
    let mut at = 0;
    let mut rest = octets;
    while let [first, more @ ..] = rest {
        at += 1;
        if *first == b'\n' {
            let empty = line_end_len(more);
            if 0 < empty {
                return at + empty;
            }
        }
        rest = more;
    }
    at
}

/// The front of the text, of at most so many octets.
fn front(octets: &[u8], most: usize) -> &[u8]
    ensures { result.now ≡ take most octets.now }
{
    if octets.len() <= most {
        return octets;
    }
    let (front, _rest) = octets.split_at(most);
    front
}

/// The header of a message, up to its empty line.
fn header_section(octets: &[u8]) -> &[u8]
    ensures { result.now ≡ headers.header_section octets.now }
{
    let empty = line_end_len(octets);
    let len = if 0 < empty {
        empty
    } else {
        through_empty_line(octets)
    };
    front(octets, len)
}

/// The header of a message, as far as it is told. No more of the message is read.
pub fn header_told(octets: &[u8]) -> &[u8]
    ensures { result.now ≡ headers.header_told octets.now }
{
    header_section(front(octets, MAX_HEADER_OCTETS))
}

/// A message, as far as it is told.
pub fn body_told(octets: &[u8]) -> &[u8]
    ensures { result.now ≡ take body_limit octets.now }
{
    front(octets, MAX_BODY_OCTETS)
}
