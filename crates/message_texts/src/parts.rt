// Parts of a message (RFC 2046).
ghost use Rattle.std.specs.Prelude.{◌≡◌, ◌++◌, map, OnOk, option_to_list, is_some};
ghost use Rattle.std.specs.List.{flat_map};
ghost use Rattle.message_texts.specs.Messages.{draft_part};
ghost use Rattle.message_texts.specs.Parts as parts;

use crate::leaves::{push_attachment, push_text_leaf};
use mail_drafts::{Attachment, Draft};
use message_lines::{Outline, end_line, push_field};
use octets::Text;
use std::alloc::{AllocError, Global};

const TEXT_PLAIN: &str = "text/plain";

const TEXT_HTML: &str = "text/html";

/// Adds the line before a part.
fn push_delimiter(text: &mut Outline, boundary: &str) -> Result<(), AllocError>
    ensures { OnOk result (text.new ≡ text.old ++ parts.delimiter_line boundary.now) }
{
    text.push(b"--")?;
    text.push(boundary.as_bytes())?;
    end_line(text)
}

/// Adds the line behind the last part.
fn push_closing(text: &mut Outline, boundary: &str) -> Result<(), AllocError>
    ensures { OnOk result (text.new ≡ text.old ++ parts.closing_line boundary.now) }
{
    text.push(b"--")?;
    text.push(boundary.as_bytes())?;
    text.push(b"--")?;
    end_line(text)
}

/// Adds a text and an HTML that says the same.
fn push_alternative(
    alloc: Global,
    text: &mut Outline,
    plain: &str,
    html: &str,
) -> Result<(), AllocError>
    ensures { OnOk result (text.new ≡ text.old ++ parts.entity_text (parts.alternative plain.now html.now)) }
{
    push_field(text, "Content-Type", b"multipart/alternative; boundary=_b")?;
    end_line(text)?;
    push_delimiter(text, "_b")?;
    push_text_leaf(alloc, text, TEXT_PLAIN, plain)?;
    push_delimiter(text, "_b")?;
    push_text_leaf(alloc, text, TEXT_HTML, html)?;
    push_closing(text, "_b")
}

/// Adds what is shown, where there is something.
fn push_shown(
    alloc: Global,
    text: &mut Outline,
    plain: &Option<Text>,
    html: &Option<Text>,
) -> Result<(), AllocError>
    ensures { OnOk result (text.new ≡ text.old ++ flat_map parts.entity_text (option_to_list (parts.shown_part plain.now html.now))) }
{
    match plain {
        None => match html {
            None => Ok(()),
            Some(html) => push_text_leaf(alloc, text, TEXT_HTML, html.as_str()),
        },
        Some(plain) => match html {
            None => push_text_leaf(alloc, text, TEXT_PLAIN, plain.as_str()),
            Some(html) => push_alternative(alloc, text, plain.as_str(), html.as_str()),
        },
    }
}

/// Whether something is shown.
fn is_shown(plain: &Option<Text>, html: &Option<Text>) -> bool
    ensures { result ≡ is_some (parts.shown_part plain.now html.now) }
{
    plain.is_some() || html.is_some()
}

/// Adds what is shown as a part by itself; an empty text where there is nothing.
fn push_alone(
    alloc: Global,
    text: &mut Outline,
    plain: &Option<Text>,
    html: &Option<Text>,
) -> Result<(), AllocError>
    ensures { OnOk result (text.new ≡ text.old ++ parts.entity_text (parts.alone (parts.shown_part plain.now html.now))) }
{
    if is_shown(plain, html) {
        push_shown(alloc, text, plain, html)
    } else {
        push_text_leaf(alloc, text, TEXT_PLAIN, "")
    }
}

/// Adds what is shown as the first part of a multipart.
fn push_first(
    alloc: Global,
    text: &mut Outline,
    plain: &Option<Text>,
    html: &Option<Text>,
) -> Result<(), AllocError>
    ensures { OnOk result (text.new ≡ text.old ++ parts.delimited_parts (option_to_list (parts.shown_part plain.now html.now))) }
{
    if is_shown(plain, html) {
        push_delimiter(text, "_a")?;
        push_shown(alloc, text, plain, html)?;
    }
    Ok(())
}

/// Adds what is attached, each as a part of a multipart.
fn push_attachments(
    alloc: Global,
    text: &mut Outline,
    attachments: &[Attachment],
) -> Result<(), AllocError>
    ensures { OnOk result (text.new ≡ text.old ++ parts.delimited_parts (map parts.attachment_leaf attachments.now)) }
{
    for attachment in attachments {
        push_delimiter(text, "_a")?;
        push_attachment(alloc, text, attachment)?;
    }
    Ok(())
}

/// Adds the part of a draft, with its own fields.
pub(crate) fn push_part(alloc: Global, text: &mut Outline, draft: &Draft) -> Result<(), AllocError>
    ensures { OnOk result (text.new ≡ text.old ++ parts.entity_text (draft_part draft.now)) }
{
    if draft.attachments.is_empty() {
        return push_alone(alloc, text, &draft.text, &draft.html);
    }
    push_field(text, "Content-Type", b"multipart/mixed; boundary=_a")?;
    end_line(text)?;
    push_first(alloc, text, &draft.text, &draft.html)?;
    push_attachments(alloc, text, draft.attachments.as_slice())?;
    push_closing(text, "_a")
}
