// Ids of messages (RFC 5322 section 3.6.4).
ghost use Rattle.std.specs.Prelude.{◌≡◌, ◌++◌, ◌<◌, ◌∷◌, [], IfOk, OnOk};
ghost use Rattle.message_lines.specs.Folding.{Lays};
ghost use Rattle.message_lines.specs.Ids as ids;

use crate::folding::{Line, push_piece};
use crate::outline::Outline;
use octets::{Bytes, Names};
use std::alloc::{AllocError, Global};

/// The id in angle brackets.
pub fn bracketed(alloc: Global, id: &[u8]) -> Result<Vec<u8>, AllocError>
    ensures { IfOk result (λ v. v.items ≡ ids.bracketed id.now) }
{
    let mut piece = Vec::new(alloc);
    piece.push(b'<')?;
    piece.extend_from_slice(id)?;
    piece.push(b'>')?;
    Ok(piece)
}

/// Adds ids.
pub fn push_ids(
    alloc: Global,
    text: &mut Outline,
    line: Line,
    list: &Names,
) -> Result<Line, AllocError>
    ensures { IfOk result (Lays (ids.AreIdTexts list.now) line text.old text.new) }
{
    let mut after = line;
    for id in list.as_slice() {
        let piece = bracketed(alloc, id.as_slice())?;
        after = push_piece(text, after, piece.as_slice(), false)?;
    }
    Ok(after)
}

fn hex_digit(number: u8) -> u8
    requires { number < 16 }
    ensures { result ≡ ids.hex_digit number }
{
    if number <= 9 {
        b'0' + number
    } else {
        b'a' + (number - 10)
    }
}

/// Adds so many hexadecimal digits of a number, its last ones.
fn push_digits(text: &mut Vec<u8>, count: u8, number: u64) -> Result<(), AllocError>
    ensures { OnOk result (text.new.items ≡ text.old.items ++ ids.hex_digits count number) }
{
    if count == 0 {
        return Ok(());
    }
    push_digits(text, count - 1, number / 16)?;
    text.push(hex_digit((number % 16) as u8))?;
    Ok(())
}

/// The id that is drawn of a word.
pub fn drawn_id(alloc: Global, word: u64) -> Result<Names, AllocError>
    ensures { IfOk result (λ names. names ≡ ids.drawn_id word ∷ []) }
{
    let mut id = Vec::new(alloc);
    push_digits(&mut id, 16, word)?;
    id.extend_from_slice(b"@jmapgate.invalid")?;
    let mut names = Names::new(alloc);
    names.push(Bytes::from_vec(id)?)?;
    Ok(names)
}
