// The pieces of a value, cut at semicolons.
ghost use Rattle.std.specs.Prelude.{◌≡◌, ◌<◌, ◌≤◌, false, None, Some, length, take, drop, IfSome, MatchOption};
ghost use Rattle.header_tokens.specs.reading.ClosingCounts.{TellClosings};
ghost use Rattle.mime_fields.specs.ContentIds.{IsUnclosed};
ghost use Rattle.mime_fields.specs.Pieces as pieces;
ghost use Rattle.mime_fields.specs.reading.PieceSteps as reading;

use header_tokens::first_octet;
use header_tokens::tokens::{comment_at, quoted_at};
use text_words::behind;

/// How many octets the unit at the front has. Whether it is closed is known.
fn unit_len(text: &[u8], closed: bool) -> usize
    requires some { 0 < length text.now }
    requires open { closed ≡ false → IsUnclosed text.now }
    ensures { reading.UnitOf result text.now }
{
    if !closed {
        return 1;
    }
    if let Some((comment, _)) = comment_at(text) {
        return comment.len();
    }
    if let Some((quoted, _)) = quoted_at(text) {
        return quoted.len();
    }
    1
}

/// How many octets the piece at the front has.
fn piece_len(text: &[u8], closed: &[bool]) -> usize
    requires { TellClosings closed.now text.now }
    ensures piece { pieces.IsPieceBefore (take result text.now) (drop result text.now) text.now }
    ensures ends { reading.EndsPiece (drop result text.now) }
    ensures within { result ≤ length text.now }
{
    let mut at = 0;
    while at < text.len() {
        let (_, rest) = text.split_at(at);
        if first_octet(rest) == b';' {
            return at;
        }
        at += unit_len(rest, closed[rest.len() - 1]);
    }
    at
}

/// The piece at the front, and what follows the semicolon after it. The closings of the value, whose end the text is, are
/// known.
pub(crate) fn next_piece<'a>(text: &'a [u8], closed: &[bool]) -> (&'a [u8], Option<&'a [u8]>)
    requires { TellClosings closed.now text.now }
    ensures piece { MatchOption result.1
        (pieces.BeginsWithPiece result.0.now None text.now)
        (λ r. pieces.BeginsWithPiece result.0.now (Some r.now) text.now) }
    ensures closings { IfSome result.1 (λ r. TellClosings closed.now r.now) }
    ensures shorter { IfSome result.1 (λ r. length r.now < length text.now) }
{
    let (piece, rest) = text.split_at(piece_len(text, closed));
    match behind(b';', rest) {
        None => (piece, None),
        Some(more) => (piece, Some(more)),
    }
}
