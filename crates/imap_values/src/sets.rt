// Words and sets of UIDs.
ghost use Rattle.std.specs.Prelude.{◌≡◌, ◌++◌, ◌∷◌, [], length, IfOk};
ghost use Rattle.imap_types.specs.UidSets.{range_of};
ghost use Rattle.imap_types.specs.declared.response.Response.{Response};
ghost use Rattle.imap_values.specs.Sets as reading;

use crate::front_octets::{before, behind, digits_len, number_of, octet_at, word_len};
use imap_types::{Response, UidRange, UidSet};
use octets::{Bytes, Listed, Names};
use std::alloc::{AllocError, Global};

/// Octets of `(EARLIER) `.
const EARLIER_OCTETS: usize = 10;

/// The words, each after a space: *(SP word).
#[tactic(auto, using(crate::proofs::SetReadings::words))]
pub fn words_in(alloc: Global, bytes: &[u8]) -> Result<Names, AllocError>
    ensures { IfOk result (λ names. names ≡ reading.words_in (length bytes.now) bytes.now) }
{
    let mut names = Names::new(alloc);
    let mut rest = bytes;
    let mut left = bytes.len();
    while 0 < left {
        if octet_at(rest, 0) != b' ' {
            return Ok(names);
        }
        let word = behind(rest, 1);
        let n = word_len(word);
        names.push(Bytes::copy_of(alloc, before(word, n))?)?;
        rest = behind(word, n);
        left -= 1;
    }
    Ok(names)
}

/// The range between two numbers, in whatever order.
pub fn range_of(first: u32, second: u32) -> UidRange
    ensures { result ≡ range_of first second }
{
    if first <= second {
        UidRange {
            first,
            last: second,
        }
    } else {
        UidRange {
            first: second,
            last: first,
        }
    }
}

/// A range, and what follows it: nz [":" nz].
#[tactic(auto, unfolding(crate::specs::Sets::range_read))]
fn range_in(bytes: &[u8]) -> (UidRange, &[u8])
    ensures range { result.0 ≡ (reading.range_read bytes.now).0 }
    ensures rest { result.1.now ≡ (reading.range_read bytes.now).1 }
{
    let n = digits_len(bytes);
    let first = number_of(before(bytes, n));
    let after = behind(bytes, n);
    if octet_at(after, 0) == b':' {
        let second = behind(after, 1);
        let n = digits_len(second);
        (
            range_of(first, number_of(before(second, n))),
            behind(second, n),
        )
    } else {
        (range_of(first, first), after)
    }
}

/// At most n ranges, each but the first after a comma: range *("," range).
#[tactic(auto, using(crate::proofs::SetReadings::ranges))]
fn ranges_in(alloc: Global, bytes: &[u8], most: usize) -> Result<Vec<UidRange>, AllocError>
    ensures { IfOk result (λ ranges. ranges.items ≡ reading.ranges_read most bytes.now) }
{
    let mut ranges = Vec::new(alloc);
    let mut rest = bytes;
    let mut left = most;
    while 0 < left {
        let (range, after) = range_in(rest);
        ranges.push(range)?;
        if octet_at(after, 0) != b',' {
            return Ok(ranges);
        }
        rest = behind(after, 1);
        left -= 1;
    }
    Ok(ranges)
}

fn vanished(earlier: bool, ranges: Vec<UidRange>) -> Response
    ensures { result ≡ Response.Vanished earlier (record { ranges = ranges.items }) }
{
    Response::Vanished {
        earlier,
        uids: UidSet {
            ranges: Listed::from_vec(ranges),
        },
    }
}

/// What stands after the space after VANISHED: ["(EARLIER)" SP] set CRLF (RFC 7162 section 3.2.10).
#[tactic(auto, unfolding(crate::specs::Sets::vanished_in))]
pub fn vanished_in(alloc: Global, bytes: &[u8]) -> Result<Response, AllocError>
    ensures { IfOk result (λ v. v ≡ reading.vanished_in bytes.now) }
{
    if octet_at(bytes, 0) == b'(' {
        let ranges = ranges_in(alloc, behind(bytes, EARLIER_OCTETS), bytes.len())?;
        Ok(vanished(true, ranges))
    } else {
        let ranges = ranges_in(alloc, bytes, bytes.len())?;
        Ok(vanished(false, ranges))
    }
}
