// The zone of a date.
ghost use Rattle.std.specs.Prelude.{◌≡◌, ◌<◌, negsuc, pos, ◌≤ℤ◌, MatchOption, IfSome, Some, None};
ghost use Rattle.header_dates.specs.Dates as dates;
ghost use Rattle.header_dates.specs.reading.DateReading as reading;

use crate::dates::number_of;
use crate::pieces::{PartPlace, Piece, next_piece};
use text_words::same_text;

/// Minutes of a number hhmm.
fn minutes_of(number: u32) -> Option<u32>
    ensures value { result ≡ dates.minutes_of number }
    ensures small { IfSome result (λ m. m < 1440) }
{
    if number % 100 > 59 {
        return None;
    }
    if number / 100 > 23 {
        return None;
    }
    Some(number / 100 * 60 + number % 100)
}

/// Minutes of a text hhmm.
fn hours_and_minutes(text: &[u8]) -> Option<u32>
    ensures value { result ≡ dates.hours_and_minutes (dates.number_in_digits 4 4 text.now) }
    ensures small { IfSome result (λ m. m < 1440) }
{
    match number_of(4, 4, text) {
        None => None,
        Some(number) => minutes_of(number),
    }
}

fn east(text: &[u8]) -> Option<i32>
    ensures value { result ≡ dates.east_of (dates.hours_and_minutes (dates.number_in_digits 4 4 text.now)) }
    ensures low { IfSome result (λ z. negsuc 1439 ≤ℤ z) }
    ensures high { IfSome result (λ z. z ≤ℤ pos 1440) }
{
    match hours_and_minutes(text) {
        None => None,
        Some(minutes) => Some(minutes as i32),
    }
}

fn west(text: &[u8]) -> Option<i32>
    ensures value { result ≡ dates.west_of (dates.hours_and_minutes (dates.number_in_digits 4 4 text.now)) }
    ensures low { IfSome result (λ z. negsuc 1439 ≤ℤ z) }
    ensures high { IfSome result (λ z. z ≤ℤ pos 1440) }
{
    match hours_and_minutes(text) {
        None => None,
        Some(minutes) => Some(0 - minutes as i32),
    }
}

/// The zones of North America by name (RFC 5322 section 4.3); other letters are 0.
fn named_zone(text: &[u8]) -> i32
    ensures value { result ≡ dates.named_zone text.now }
    ensures low { negsuc 1439 ≤ℤ result }
    ensures high { result ≤ℤ pos 1440 }
{
    if same_text(text, b"est") {
        -300
    } else if same_text(text, b"edt") {
        -240
    } else if same_text(text, b"cst") {
        -360
    } else if same_text(text, b"cdt") {
        -300
    } else if same_text(text, b"mst") {
        -420
    } else if same_text(text, b"mdt") {
        -360
    } else if same_text(text, b"pst") {
        -480
    } else if same_text(text, b"pdt") {
        -420
    } else {
        0
    }
}

/// How far a zone is east of UTC, in minutes: a sign and hhmm.
fn offset_of(sign: u8, text: &[u8]) -> Option<i32>
    ensures value { result ≡ dates.offset_of sign text.now }
    ensures low { IfSome result (λ z. negsuc 1439 ≤ℤ z) }
    ensures high { IfSome result (λ z. z ≤ℤ pos 1440) }
{
    if sign == b'+' { east(text) } else { west(text) }
}

/// How far the zone that a piece is lies east of UTC, in minutes.
fn zone_of(piece: Piece<'_>) -> Option<i32>
    ensures value { result ≡ reading.zone_of (reading.piece_view piece.entry) }
    ensures low { IfSome result (λ z. negsuc 1439 ≤ℤ z) }
    ensures high { IfSome result (λ z. z ≤ℤ pos 1440) }
{
    match piece {
        Piece::Signed(sign, text) => offset_of(sign, text),
        Piece::Letters(text) => Some(named_zone(text)),
        Piece::Digits(_) | Piece::Octet(_) | Piece::Other => None,
    }
}

/// The zone at the place, and the place after it.
pub(crate) fn zone(place: PartPlace<'_>) -> Option<(i32, PartPlace<'_>)>
    ensures value { MatchOption result (reading.zone_in (reading.pieces_at place.entry) ≡ None) (λ r. reading.zone_in (reading.pieces_at place.entry) ≡ Some (r.0, reading.pieces_at r.1)) }
    ensures low { IfSome result (λ r. negsuc 1439 ≤ℤ r.0) }
    ensures high { IfSome result (λ r. r.0 ≤ℤ pos 1440) }
{
    match next_piece(place) {
        None => None,
        Some((piece, rest)) => match zone_of(piece) {
            None => None,
            Some(zone) => Some((zone, rest)),
        },
    }
}
