// What the fields of a head say (RFC 9110, RFC 9112 section 6).
ghost use Rattle.std.specs.Prelude.{◌≡◌, ◌≤◌, ◌-◌, ◌^◌, ℕ, List, length, map, min, All, IsTrue, MatchOption, ◌↔◌};
ghost use Rattle.std.specs.Str.Parse.{digits_value};
ghost use Rattle.httparse.specs.Spans.{IsWithin, IsHeaderWithin, span_bytes, header_bytes};
ghost use Rattle.text_words.specs.Octets.{is_digit, is_same_text};
ghost use Rattle.text_words.specs.Cuts.{Each, IsRun};
ghost use Rattle.http_service.specs.Fields.{values_of, first_value, IsTokenOf, IsToken, IsLengthValue, IsLength, IsChunkedCoding, IsBodyKind, Expects, content_length, transfer_encoding, authorization, content_type, expect};
ghost use Rattle.http_service.specs.declared.head.BodyKind.{BodyKind};
ghost use Rattle.std.specs.Option.{option_copied};
ghost use Rattle.http_service.specs.reading.Values.{AreValues, AreWithin, with_value};

use crate::head::BodyKind;
use httparse::spans::{HeaderSpan, Span};
use text_words::{Class, Digit, are_all, cut, same_text};

/// The values of the fields of one name: none, the only one, or the first of several.
#[derive(Clone, Copy, Debug, PartialEq, Eq)]
pub(crate) enum Values {
    Absent,
    Only(Span),
    Several(Span),
}

fn with_value(values: Values, value: Span) -> Values
    ensures { result ≡ with_value value values }
{
    match values {
        Values::Absent => Values::Only(value),
        Values::Only(first) => Values::Several(first),
        Values::Several(first) => Values::Several(first),
    }
}

fn is_named(octets: &[u8], field: &HeaderSpan, name: &[u8]) -> bool
    requires { IsHeaderWithin (length octets.now) field.now }
    ensures { result ≡ is_same_text (span_bytes octets.now field.now.name) name.now }
{
    same_text(field.name.of(octets), name)
}

/// The values of the fields of this name. Names are equal where A to Z count as a to z (RFC 9110 section 5.1).
pub(crate) fn values_of(octets: &[u8], fields: &[HeaderSpan], name: &[u8]) -> Values
    requires { All (IsHeaderWithin (length octets.now)) fields.now }
    ensures values { AreValues octets.now (values_of name.now (map (header_bytes octets.now) fields.now)) result }
    ensures within { AreWithin (length octets.now) result }
{
    let mut values = Values::Absent;
    for field in fields {
        if is_named(octets, field, name) {
            values = with_value(values, field.value);
        }
    }
    values
}

/// The spaces between a scheme and what follows it.
struct Space;

impl Class<u8> for Space {
    ghost test = { Rattle.http_service.specs.Fields.is_space };

    fn has(&self, item: &u8) -> bool {
        *item == b' '
    }
}

/// The token of a value of the Bearer scheme (RFC 6750 section 2.1).
fn bearer_token(value: &[u8]) -> Option<&[u8]>
    ensures { IsTokenOf value.now (option_copied result) }
{
    if value.len() < BEARER.len() {
        return None;
    }
    let (scheme, rest) = value.split_at(BEARER.len());
    if !same_text(scheme, BEARER) {
        return None;
    }
    let (gap, token) = cut(&Space, rest);
    if gap.is_empty() { None } else { Some(token) }
}

const BEARER: &[u8] = b"bearer";

/// The number of a Content-Length value (RFC 9110 section 8.6). One that is too large counts as the largest.
fn length_in(value: &[u8]) -> Option<u64>
    ensures { MatchOption result (IsRun is_digit value.now → ⊥) (λ n. IsLengthValue value.now n) }
{
    if value.is_empty() || !are_all(&Digit, value) {
        return None;
    }
    Some(number_of(value))
}

// The number that the digits write, or the largest.
fn number_of(digits: &[u8]) -> u64
    requires { Each is_digit digits.now }
    ensures { result ≡ min (digits_value 10 digits.now) (2 ^ 64 - 1) }
{
    let mut number: u64 = 0;
    for digit in digits {
        number = number
            .saturating_mul(10)
            .saturating_add((*digit - b'0') as u64);
    }
    number
}

// The length that the Content-Length values say.
fn length_of(octets: &[u8], lengths: Values) -> Option<u64>
    requires { AreWithin (length octets.now) lengths }
    ensures { (ls : List (List ℕ)) → AreValues octets.now ls lengths → MatchOption result ((n : ℕ) → IsLength ls n → ⊥) (IsLength ls) }
{
    match lengths {
        Values::Absent => Some(0),
        Values::Only(value) => length_in(value.of(octets)),
        Values::Several(_) => None,
    }
}

// Whether the only transfer coding is chunked.
fn is_chunked(octets: &[u8], codings: Values) -> bool
    requires { AreWithin (length octets.now) codings }
    ensures { (cs : List (List ℕ)) → AreValues octets.now cs codings → IsTrue result ↔ IsChunkedCoding cs }
{
    match codings {
        Values::Absent => false,
        Values::Only(coding) => same_text(coding.of(octets), b"chunked"),
        Values::Several(_) => false,
    }
}

// The body that the Content-Length and Transfer-Encoding values say.
fn body_of(octets: &[u8], lengths: Values, codings: Values) -> Option<BodyKind>
    requires lengths { AreWithin (length octets.now) lengths }
    requires codings { AreWithin (length octets.now) codings }
    ensures { (ls cs : List (List ℕ)) → AreValues octets.now ls lengths → AreValues octets.now cs codings
        → MatchOption result ((body : BodyKind) → IsBodyKind ls cs body → ⊥) (IsBodyKind ls cs) }
{
    match (lengths, codings) {
        (lengths, Values::Absent) => Some(BodyKind::Length(length_of(octets, lengths)?)),
        (Values::Absent, codings) => {
            if is_chunked(octets, codings) {
                Some(BodyKind::Chunked)
            } else {
                None
            }
        }
        _ => None,
    }
}

/// How the body's end is known (RFC 9112 section 6.3).
pub(crate) fn body_in(octets: &[u8], fields: &[HeaderSpan]) -> Option<BodyKind>
    requires { All (IsHeaderWithin (length octets.now)) fields.now }
    ensures { let named = map (header_bytes octets.now) fields.now in
        MatchOption result ((body : BodyKind) → IsBodyKind (values_of content_length named) (values_of transfer_encoding named) body → ⊥)
        (IsBodyKind (values_of content_length named) (values_of transfer_encoding named)) }
{
    let lengths = values_of(octets, fields, b"content-length");
    let codings = values_of(octets, fields, b"transfer-encoding");
    body_of(octets, lengths, codings)
}

fn token_of(octets: &[u8], credentials: Values) -> Option<&[u8]>
    requires { AreWithin (length octets.now) credentials }
    ensures { (cs : List (List ℕ)) → AreValues octets.now cs credentials → IsToken cs (option_copied result) }
{
    match credentials {
        Values::Absent => None,
        Values::Only(value) => bearer_token(value.of(octets)),
        Values::Several(_) => None,
    }
}

/// The token of the only Authorization field, where that is of the Bearer scheme.
pub(crate) fn token_in<'a>(octets: &'a [u8], fields: &[HeaderSpan]) -> Option<&'a [u8]>
    requires { All (IsHeaderWithin (length octets.now)) fields.now }
    ensures { IsToken (values_of authorization (map (header_bytes octets.now) fields.now)) (option_copied result) }
{
    token_of(octets, values_of(octets, fields, b"authorization"))
}

fn first_of(octets: &[u8], values: Values) -> Option<&[u8]>
    requires { AreWithin (length octets.now) values }
    ensures { (vs : List (List ℕ)) → AreValues octets.now vs values → option_copied result ≡ first_value vs }
{
    match values {
        Values::Absent => None,
        Values::Only(value) => Some(value.of(octets)),
        Values::Several(value) => Some(value.of(octets)),
    }
}

/// The value of the first Content-Type field.
pub(crate) fn content_type_in<'a>(octets: &'a [u8], fields: &[HeaderSpan]) -> Option<&'a [u8]>
    requires { All (IsHeaderWithin (length octets.now)) fields.now }
    ensures { option_copied result ≡ first_value (values_of content_type (map (header_bytes octets.now) fields.now)) }
{
    first_of(octets, values_of(octets, fields, b"content-type"))
}

/// Whether the client waits for `100 Continue`. In a head of HTTP/1.0 that is to be ignored (RFC 9110 section 10.1.1).
pub(crate) fn is_expecting(octets: &[u8], fields: &[HeaderSpan], minor: u8) -> bool
    requires { All (IsHeaderWithin (length octets.now)) fields.now }
    ensures { IsTrue result ↔ Expects minor (first_value (values_of expect (map (header_bytes octets.now) fields.now))) }
{
    match first_of(octets, values_of(octets, fields, b"expect")) {
        Some(value) => minor == 1 && same_text(value, b"100-continue"),
        None => false,
    }
}
