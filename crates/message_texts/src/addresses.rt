// Addresses (RFC 5322 section 3.4).
ghost use Rattle.std.specs.Prelude.{◌≡◌, ◌++◌, ◌∷◌, IfOk};
ghost use Rattle.message_lines.specs.Folding.{Lays};
ghost use Rattle.message_texts.specs.AddressTexts as texts;

use mail_drafts::Mailbox;
use message_lines::{Line, Outline, push_name, push_piece};
use std::alloc::{AllocError, Global};

/// The address in angle brackets, with `end` behind it.
fn in_brackets(alloc: Global, email: &[u8], end: &[u8]) -> Result<Vec<u8>, AllocError>
    ensures { IfOk result (λ v. v.items ≡ 60 ∷ (email.now ++ 62 ∷ end.now)) }
{
    let mut piece = Vec::new(alloc);
    piece.push(b'<')?;
    piece.extend_from_slice(email)?;
    piece.push(b'>')?;
    piece.extend_from_slice(end)?;
    Ok(piece)
}

fn with_end(alloc: Global, email: &[u8], end: &[u8]) -> Result<Vec<u8>, AllocError>
    ensures { IfOk result (λ v. v.items ≡ email.now ++ end.now) }
{
    let mut piece = email.to_vec(alloc)?;
    piece.extend_from_slice(end)?;
    Ok(piece)
}

/// Adds an address, with `end` behind it.
fn push_address(
    alloc: Global,
    text: &mut Outline,
    line: Line,
    mailbox: &Mailbox,
    end: &[u8],
) -> Result<Line, AllocError>
    ensures { IfOk result (Lays (texts.IsAddressText line end.now mailbox.now) line text.old text.new) }
{
    let email = mailbox.email.as_str().as_bytes();
    match &mailbox.name {
        None => {
            let piece = with_end(alloc, email, end)?;
            push_piece(text, line, piece.as_slice(), false)
        }
        Some(name) => {
            let line = push_name(alloc, text, line, name.as_str())?;
            let piece = in_brackets(alloc, email, end)?;
            push_piece(text, line, piece.as_slice(), false)
        }
    }
}

/// What stands behind an address before these ones.
fn end_before(list: &[Mailbox]) -> &'static [u8]
    ensures { result.now ≡ texts.comma_before list.now }
{
    if list.is_empty() { b"" } else { b"," }
}

/// Adds addresses with a comma between two.
pub(crate) fn push_address_list(
    alloc: Global,
    text: &mut Outline,
    line: Line,
    list: &[Mailbox],
) -> Result<Line, AllocError>
    ensures { IfOk result (Lays (texts.AreAddressTexts line list.now) line text.old text.new) }
{
    let mut after = line;
    let mut rest = list;
    while let [mailbox, behind @ ..] = rest {
        after = push_address(alloc, text, after, mailbox, end_before(behind))?;
        rest = behind;
    }
    Ok(after)
}
