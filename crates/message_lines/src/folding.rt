// Fields of a header, and where their lines are folded (RFC 5322 section 2.2).
ghost use Rattle.std.specs.Prelude.{◌≡◌, ◌+◌, ◌||◌, ◌++◌, ◌∷◌, [], IfOk, OnOk};
ghost use Rattle.message_lines.specs.Folding as folding;

use crate::outline::Outline;
use std::alloc::AllocError;

/// The most octets of a line (RFC 5322 section 2.1.1).
const MAX_LINE_OCTETS: usize = 998;

/// The most octets of a line that has an encoded word (RFC 2047 section 2).
const MAX_ENCODED_LINE_OCTETS: usize = 76;

/// How many octets a line has, and whether an encoded word is among them.
#[derive(Clone, Copy)]
pub struct Line {
    pub width: usize,
    pub encoded: bool,
}

/// Begins a field: its name and the colon.
pub fn begin_field(text: &mut Outline, name: &str) -> Result<Line, AllocError>
    ensures { IfOk result (λ line. (text.new ≡ text.old ++ (name.now ++ 58 ∷ [])) × (line ≡ folding.begun name.now)) }
{
    text.push(name.as_bytes())?;
    text.push(b":")?;
    Ok(Line {
        width: name.len() + 1,
        encoded: false,
    })
}

/// Whether the line has room for a space and so many octets.
fn has_room(line: Line, len: usize, encoded: bool) -> bool
    ensures { result ≡ folding.is_short (record { width = line.width + 1 + len; encoded = line.encoded || encoded }) }
{
    let limit = if line.encoded || encoded {
        MAX_ENCODED_LINE_OCTETS
    } else {
        MAX_LINE_OCTETS
    };
    line.width < limit && len <= limit - line.width - 1
}

/// Adds a piece of a value after a space, or on a further line where this one would be too long.
pub fn push_piece(
    text: &mut Outline,
    line: Line,
    piece: &[u8],
    encoded: bool,
) -> Result<Line, AllocError>
    ensures { IfOk result (λ after. let p : folding.FieldPiece = record { text = piece.now; encoded = encoded } in
        (text.new ≡ text.old ++ folding.laid line (p ∷ [])) × (after ≡ folding.next_line line p)) }
{
    if has_room(line, piece.len(), encoded) {
        text.push(b" ")?;
        text.push(piece)?;
        return Ok(Line {
            width: line.width + 1 + piece.len(),
            encoded: line.encoded || encoded,
        });
    }
    text.push(b"\r\n ")?;
    text.push(piece)?;
    Ok(Line {
        width: 1 + piece.len(),
        encoded,
    })
}

/// Ends a line.
pub fn end_line(text: &mut Outline) -> Result<(), AllocError>
    ensures { OnOk result (text.new ≡ text.old ++ folding.crlf) }
{
    text.push(b"\r\n")
}

/// Adds a field whose value is one piece.
pub fn push_field(text: &mut Outline, name: &str, value: &[u8]) -> Result<(), AllocError>
    ensures { OnOk result (text.new ≡ text.old ++ folding.field_text (folding.field name.now (value.now ∷ []))) }
{
    let line = begin_field(text, name)?;
    push_piece(text, line, value, false)?;
    end_line(text)
}
