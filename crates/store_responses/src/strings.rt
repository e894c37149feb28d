// Strings, words and names (RFC 9051 sections 4.3 and 9).
ghost use Rattle.std.specs.Prelude.{◌≡◌, ◌++◌, OnOk};
ghost use Rattle.imap_types.specs.Lines as lines;
ghost use Rattle.imap_types.specs.Strings.{quoted};
ghost use Rattle.store_responses.specs.ResponseTexts as texts;

use crate::numbers::push_number;
use octets::{Bytes, Names};
use std::alloc::AllocError;

/// Adds the text in quotes, with `\` before each `"` and `\` (section 4.3).
pub fn push_quoted(out: &mut Vec<u8>, text: &[u8]) -> Result<(), AllocError>
    ensures { OnOk result (out.new.items ≡ out.old.items ++ quoted text.now) }
{
    out.push(b'"')?;
    for octet in text {
        if *octet == b'"' || *octet == b'\\' {
            out.push(b'\\')?;
        }
        out.push(*octet)?;
    }
    out.push(b'"')?;
    Ok(())
}

/// Adds a literal: "{" number "}" CRLF, and the octets (section 4.3).
pub fn push_literal(out: &mut Vec<u8>, octets: &[u8]) -> Result<(), AllocError>
    ensures { OnOk result (out.new.items ≡ out.old.items ++ texts.literal_text octets.now) }
{
    push_number(out, b"{", octets.len() as u64)?;
    out.extend_from_slice(b"}\r\n")?;
    out.extend_from_slice(octets)?;
    Ok(())
}

/// Adds words, a space before each.
pub fn push_spaced(out: &mut Vec<u8>, words: &[Bytes]) -> Result<(), AllocError>
    ensures { OnOk result (out.new.items ≡ out.old.items ++ lines.spaced words.now) }
{
    for word in words {
        out.push(b' ')?;
        out.extend_from_slice(word.as_slice())?;
    }
    Ok(())
}

/// Adds words, a space between two.
fn push_joined(out: &mut Vec<u8>, words: &[Bytes]) -> Result<(), AllocError>
    ensures { OnOk result (out.new.items ≡ out.old.items ++ lines.joined words.now) }
{
    let [first, more @ ..] = words else {
        return Ok(());
    };
    out.extend_from_slice(first.as_slice())?;
    push_spaced(out, more)
}

/// Adds names: "(" [name *(SP name)] ")".
pub fn push_names(out: &mut Vec<u8>, names: &Names) -> Result<(), AllocError>
    ensures { OnOk result (out.new.items ≡ out.old.items ++ texts.names_text names.now) }
{
    out.push(b'(')?;
    push_joined(out, names.as_slice())?;
    out.push(b')')?;
    Ok(())
}
