// The quoted-printable encoding (RFC 2045 section 6.7).
ghost use Rattle.std.specs.Prelude.{◌≡◌, ◌<◌, ◌≤◌, [], ◌∷◌, ◌++◌, length, IfOk, OnOk};
ghost use Rattle.text_words.specs.Cuts.{front, back};
ghost use Rattle.text_words.specs.LineEnds as lines;
ghost use Rattle.text_words.specs.Octets as classes;
ghost use Rattle.header_words.specs.QuotedPrintable as printable;
ghost use Rattle.header_words.specs.reading.Units as reading;

use crate::quoted_text::hex_octet;
use std::alloc::{AllocError, Global};
use text_words::{Blank, begins_with_lf, cut, is_blank, line_end_len};

/// The octets that a text in quoted-printable spells (RFC 2045 section 6.7), and whether it has a wrong "=", which
/// stays as it is.
pub fn decode_printable(alloc: Global, text: &[u8]) -> Result<(Vec<u8>, bool), AllocError>
    ensures { IfOk result (λ r. printable.IsPrintable r.0.items r.1 text.now) }
{
    let mut octets = Vec::new(alloc);
    let mut problem = false;
    let mut rest = text;
    while !rest.is_empty() {
        let piece = piece_at(rest);
        push_piece(&mut octets, piece)?;
        rest = piece.rest;
        problem |= piece.wrong;
    }
    Ok((octets, problem))
}

/// How many octets a text in quoted-printable spells.
pub fn printable_len(text: &[u8]) -> usize
    ensures { printable.HasPrintableLen result text.now }
{
    let mut len = 0;
    let mut rest = text;
    while !rest.is_empty() {
        let piece = piece_at(rest);
        len += piece_len(piece);
        rest = piece.rest;
    }
    len
}

/// The piece at the front of a text: the octet that it spells in hexadecimal, the octets that stand for themselves,
/// whether it is a wrong "=", and what follows it.
#[derive(Clone, Copy)]
struct PieceAt<'a> {
    spelled: Option<u8>,
    kept: &'a [u8],
    wrong: bool,
    rest: &'a [u8],
}

/// Adds the octets of a piece.
fn push_piece(octets: &mut Vec<u8>, piece: PieceAt<'_>) -> Result<(), AllocError>
    ensures { OnOk result (octets.new.items ≡ octets.old.items ++ reading.octets_read piece.entry) }
{
    if let Some(octet) = piece.spelled {
        octets.push(octet)?;
    }
    octets.extend_from_slice(piece.kept)
}

fn piece_len(piece: PieceAt<'_>) -> usize
    ensures { result ≡ length (reading.octets_read piece.entry) }
{
    match piece.spelled {
        None => piece.kept.len(),
        Some(_) => 1 + piece.kept.len(),
    }
}

/// The piece at the front.
#[tactic(auto, unfolding(crate::specs::reading::Units::piece_in))]
fn piece_at(text: &[u8]) -> PieceAt<'_>
    requires { 0 < length text.now }
    ensures { reading.Reads (reading.piece_in text.now) text.now result }
{
    match text {
        [] => unreachable!(),
        [first, rest @ ..] => {
            if *first == b'=' {
                sign_at(text, rest)
            } else if is_blank(*first) {
                blanks_at(text)
            } else {
                let (kept, rest) = text.split_at(1);
                PieceAt {
                    spelled: None,
                    kept,
                    wrong: false,
                    rest,
                }
            }
        }
    }
}
/// What an "=" at the front of a text begins, where `behind` follows it.
fn sign_at<'a>(text: &'a [u8], behind: &'a [u8]) -> PieceAt<'a>
    requires { text.now ≡ 61 ∷ behind.now }
    ensures { reading.Reads (reading.sign_of (reading.hex_in behind.now) behind.now) (61 ∷ behind.now) result }
{
    match hex_octet(behind) {
        None => break_at(text, behind),
        Some(octet) => {
            let (digits, rest) = behind.split_at(2);
            let (kept, _) = digits.split_at(0);
            PieceAt {
                spelled: Some(octet),
                kept,
                wrong: false,
                rest,
            }
        }
    }
}

/// A soft break, or else the "=" at the front itself, where `behind` follows it.
fn break_at<'a>(text: &'a [u8], behind: &'a [u8]) -> PieceAt<'a>
    requires { text.now ≡ 61 ∷ behind.now }
    ensures { reading.Reads
        (reading.break_of (length (front classes.is_blank behind.now)) (lines.line_end_len (back classes.is_blank behind.now)))
        (61 ∷ behind.now) result }
{
    let (_, rest) = cut(&Blank, behind);
    let len = line_end_len(rest);
    if len == 0 {
        let (kept, rest) = text.split_at(1);
        return PieceAt {
            spelled: None,
            kept,
            wrong: true,
            rest,
        };
    }
    let (kept, _) = text.split_at(0);
    let (_, rest) = rest.split_at(len);
    PieceAt {
        spelled: None,
        kept,
        wrong: false,
        rest,
    }
}

/// The blanks at the front, which are dropped at the end of a line.
fn blanks_at(text: &[u8]) -> PieceAt<'_>
    ensures { reading.Reads
        (reading.blanks_of (front classes.is_blank text.now) (back classes.is_blank text.now))
        text.now result }
{
    let (blanks, rest) = cut(&Blank, text);
    if ends_line(rest) {
        let (kept, _) = text.split_at(0);
        return PieceAt {
            spelled: None,
            kept,
            wrong: false,
            rest,
        };
    }
    PieceAt {
        spelled: None,
        kept: blanks,
        wrong: false,
        rest,
    }
}

/// Whether nothing follows in the line.
fn ends_line(text: &[u8]) -> bool
    ensures { result ≡ printable.ends_line text.now }
{
    match text {
        [] => true,
        [first, rest @ ..] => *first == b'\n' || (*first == b'\r' && begins_with_lf(rest)),
    }
}
