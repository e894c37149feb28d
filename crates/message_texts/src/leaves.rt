// Leaves of a message (RFC 2045, RFC 2183).
ghost use Rattle.std.specs.Prelude.{◌≡◌, ◌++◌, map, string_bytes, IfOk, OnOk};
ghost use Rattle.message_lines.specs.Folding.{field_text, fields_text, laid, plain_piece};
ghost use Rattle.message_texts.specs.Parts as parts;

use mail_drafts::Attachment;
use message_lines::{
    Line, Outline, begin_field, bracketed, end_line, push_field, push_piece, with_crlf,
};
use octets::{Bytes, Text};
use percent_encoding::{NON_ALPHANUMERIC, percent_encode};
use std::alloc::{AllocError, Global};

const ENCODING: &str = "Content-Transfer-Encoding";

/// A text, and another one behind it.
fn joined(alloc: Global, front: &str, behind: &str) -> Result<String, AllocError>
    ensures { IfOk result (λ text. string_bytes text ≡ front.now ++ behind.now) }
{
    let mut text = String::from_str(alloc, front)?;
    text.push_str(behind)?;
    Ok(text)
}

/// Adds a text in UTF-8, of this media type.
pub(crate) fn push_text_leaf(
    alloc: Global,
    text: &mut Outline,
    media: &str,
    value: &str,
) -> Result<(), AllocError>
    ensures { OnOk result (text.new ≡ text.old ++ parts.entity_text (parts.text_leaf media.now value.now)) }
{
    let content = joined(alloc, media, "; charset=utf-8")?;
    push_field(text, "Content-Type", content.as_bytes())?;
    push_field(text, ENCODING, b"base64")?;
    end_line(text)?;
    let value = with_crlf(alloc, value.as_bytes())?;
    text.push_leaf(alloc, Bytes::from_vec(value)?)
}

/// The name of a file, as a parameter.
fn file_name(alloc: Global, name: &[u8]) -> Result<String, AllocError>
    ensures { IfOk result (λ text. string_bytes text ≡ parts.file_name name.now) }
{
    let mut file = String::from_str(alloc, "filename*=utf-8''")?;
    percent_encode(name, NON_ALPHANUMERIC).append_to(&mut file)?;
    Ok(file)
}

fn disposition(inline: bool) -> &'static str
    ensures { result.now ≡ parts.disposition inline }
{
    if inline { "inline" } else { "attachment" }
}

/// Adds how the part is to be shown, and its name.
fn push_disposition_pieces(
    alloc: Global,
    text: &mut Outline,
    line: Line,
    inline: bool,
    name: &Option<Text>,
) -> Result<Line, AllocError>
    ensures { OnOk result (text.new ≡ text.old ++ laid line (map plain_piece (parts.disposition_pieces inline name.now))) }
{
    match name {
        None => push_piece(text, line, disposition(inline).as_bytes(), false),
        Some(name) => {
            let kind = joined(alloc, disposition(inline), ";")?;
            let line = push_piece(text, line, kind.as_bytes(), false)?;
            let file = file_name(alloc, name.as_str().as_bytes())?;
            push_piece(text, line, file.as_bytes(), false)
        }
    }
}

/// Adds the field that says how the part is to be shown.
fn push_disposition(
    alloc: Global,
    text: &mut Outline,
    inline: bool,
    name: &Option<Text>,
) -> Result<(), AllocError>
    ensures { OnOk result (text.new ≡ text.old ++ field_text (parts.disposition_field inline name.now)) }
{
    let line = begin_field(text, "Content-Disposition")?;
    push_disposition_pieces(alloc, text, line, inline, name)?;
    end_line(text)
}

/// Adds the id of a part, where it has one.
fn push_content_id(alloc: Global, text: &mut Outline, cid: &Option<Text>) -> Result<(), AllocError>
    ensures { OnOk result (text.new ≡ text.old ++ fields_text (parts.id_fields cid.now)) }
{
    match cid {
        None => Ok(()),
        Some(cid) => {
            let id = bracketed(alloc, cid.as_str().as_bytes())?;
            push_field(text, "Content-ID", id.as_slice())
        }
    }
}

/// A media type, with the charset that is told of it.
fn content_type(alloc: Global, media: &Text, charset: &Option<Text>) -> Result<String, AllocError>
    ensures { IfOk result (λ text. string_bytes text ≡ media.now ++ parts.charset_parameter charset.now) }
{
    match charset {
        None => joined(alloc, media.as_str(), ""),
        Some(charset) => {
            let media = joined(alloc, media.as_str(), "; charset=")?;
            joined(alloc, media.as_str(), charset.as_str())
        }
    }
}

/// Adds what is attached.
pub(crate) fn push_attachment(
    alloc: Global,
    text: &mut Outline,
    attachment: &Attachment,
) -> Result<(), AllocError>
    ensures { OnOk result (text.new ≡ text.old ++ parts.entity_text (parts.attachment_leaf attachment.now)) }
{
    let content = content_type(alloc, &attachment.media, &attachment.charset)?;
    push_field(text, "Content-Type", content.as_bytes())?;
    push_field(text, ENCODING, b"base64")?;
    push_disposition(alloc, text, attachment.inline, &attachment.name)?;
    push_content_id(alloc, text, &attachment.cid)?;
    end_line(text)?;
    text.push_leaf(alloc, attachment.bytes.share()?)
}
