// The elements of a value: what stands between commas and semicolons outside lumps.
ghost use Rattle.std.specs.Prelude.{◌<◌, ◌≤◌, None, Some, length, take, drop, IfSome, MatchOption};
ghost use Rattle.header_tokens.specs.reading.ClosingCounts.{TellClosings};
ghost use Rattle.loose_addresses.specs.reading.ElementSteps as reading;

use crate::lumps::lump_at;
use text_words::first;

/// How many octets the element at the front has.
fn element_len(text: &[u8], closed: &[bool]) -> usize
    requires { TellClosings closed.now text.now }
    ensures element { reading.IsElementBefore (take result text.now) (drop result text.now) text.now }
    ensures ends { reading.EndsElement (drop result text.now) }
    ensures within { result ≤ length text.now }
{
    let mut at = 0;
    while at < text.len() {
        let Some(len) = lump_at(text, closed, at) else {
            return at;
        };
        at += len;
    }
    at
}

/// The element at the front, and what follows the separator after it. The closings of the value, whose end the text is, are
/// known.
pub(crate) fn next_element<'a>(text: &'a [u8], closed: &[bool]) -> (&'a [u8], Option<&'a [u8]>)
    requires { TellClosings closed.now text.now }
    ensures element { MatchOption result.1
        (reading.BeginsWithElement result.0.now None text.now)
        (λ r. reading.BeginsWithElement result.0.now (Some r.now) text.now) }
    ensures closings { IfSome result.1 (λ r. TellClosings closed.now r.now) }
    ensures shorter { IfSome result.1 (λ r. length r.now < length text.now) }
{
    let (element, rest) = text.split_at(element_len(text, closed));
    match first(rest) {
        None => (element, None),
        Some((_separator, more)) => (element, Some(more)),
    }
}
