// Responses (RFC 9051 section 7, RFC 7162 section 3.2).
ghost use Rattle.std.specs.Prelude.{◌≡◌, ◌++◌, ◌∷◌, OnOk, codes};
ghost use Rattle.std.specs.Fmt.{decimal};
ghost use Rattle.imap_types.specs.declared.response.Response.TheVariants as response;
ghost use Rattle.imap_types.specs.Lines as lines;
ghost use Rattle.imap_types.specs.Texts.{crlf};
ghost use Rattle.store_responses.specs.ResponseTexts as texts;

use crate::codes::push_status_line;
use crate::items::{push_counts, push_items};
use crate::numbers::{push_number, push_ranges};
use crate::strings::{push_names, push_quoted, push_spaced};
use imap_types::{FetchItems, Response, StatusItems, UidSet};
use octets::Names;
use std::alloc::AllocError;

/// Adds a text, and words with a space before each.
fn push_words(out: &mut Vec<u8>, text: &[u8], words: &Names) -> Result<(), AllocError>
    ensures { OnOk result (out.new.items ≡ out.old.items ++ (text.now ++ lines.spaced words.now ++ crlf)) }
{
    out.extend_from_slice(text)?;
    push_spaced(out, words.as_slice())?;
    out.extend_from_slice(b"\r\n")
}

/// Adds the octet in quotes, or NIL.
fn push_delimiter(out: &mut Vec<u8>, delimiter: Option<u8>) -> Result<(), AllocError>
    ensures { OnOk result (out.new.items ≡ out.old.items ++ texts.delimiter_text delimiter) }
{
    match delimiter {
        Some(octet) => push_quoted(out, &[octet]),
        None => out.extend_from_slice(b"NIL"),
    }
}

/// Adds a LIST (RFC 9051 section 7.3.1).
fn push_list(
    out: &mut Vec<u8>,
    attributes: &Names,
    delimiter: Option<u8>,
    name: &[u8],
) -> Result<(), AllocError>
    ensures { OnOk result (out.new.items ≡ out.old.items ++ texts.text_of_response (response.List attributes.now delimiter name.now)) }
{
    out.extend_from_slice(b"* LIST ")?;
    push_names(out, attributes)?;
    out.push(b' ')?;
    push_delimiter(out, delimiter)?;
    out.push(b' ')?;
    push_quoted(out, name)?;
    out.extend_from_slice(b"\r\n")
}

/// Adds a STATUS (RFC 9051 section 7.3.3).
fn push_status(out: &mut Vec<u8>, name: &[u8], items: &StatusItems) -> Result<(), AllocError>
    ensures { OnOk result (out.new.items ≡ out.old.items ++ texts.text_of_response (response.StatusItems name.now items.now)) }
{
    out.extend_from_slice(b"* STATUS ")?;
    push_quoted(out, name)?;
    out.extend_from_slice(b" (")?;
    push_counts(out, items)?;
    out.extend_from_slice(b")\r\n")
}

/// Adds a FLAGS (RFC 9051 section 7.3.5).
fn push_flags(out: &mut Vec<u8>, flags: &Names) -> Result<(), AllocError>
    ensures { OnOk result (out.new.items ≡ out.old.items ++ texts.text_of_response (response.Flags flags.now)) }
{
    out.extend_from_slice(b"* FLAGS ")?;
    push_names(out, flags)?;
    out.extend_from_slice(b"\r\n")
}

/// Adds a number and a text: `* 4 EXISTS`.
fn push_numbered(out: &mut Vec<u8>, number: u32, text: &[u8]) -> Result<(), AllocError>
    ensures { OnOk result (out.new.items ≡ out.old.items ++ (codes "* " ++ decimal number ++ text.now)) }
{
    push_number(out, b"* ", u64::from(number))?;
    out.extend_from_slice(text)
}

/// Adds a FETCH (RFC 9051 section 7.5.2).
fn push_fetch(out: &mut Vec<u8>, seq: u32, items: &FetchItems) -> Result<(), AllocError>
    ensures { OnOk result (out.new.items ≡ out.old.items ++ texts.text_of_response (response.Fetch seq items.now)) }
{
    push_numbered(out, seq, b" FETCH (")?;
    push_items(out, items)?;
    out.extend_from_slice(b")\r\n")
}

/// Adds a VANISHED (RFC 7162 section 3.2.10).
fn push_vanished(out: &mut Vec<u8>, earlier: bool, uids: &UidSet) -> Result<(), AllocError>
    ensures { OnOk result (out.new.items ≡ out.old.items ++ texts.text_of_response (response.Vanished earlier uids.now)) }
{
    if earlier {
        out.extend_from_slice(b"* VANISHED (EARLIER) ")?;
    } else {
        out.extend_from_slice(b"* VANISHED ")?;
    }
    push_ranges(out, uids.ranges.as_slice())?;
    out.extend_from_slice(b"\r\n")
}

/// Adds the text of a response. Where memory is wanting, part of it may have been added.
pub fn push_response(out: &mut Vec<u8>, response: &Response) -> Result<(), AllocError>
    ensures { OnOk result (out.new.items ≡ out.old.items ++ texts.text_of_response response.now) }
{
    match response {
        Response::Tagged { tag, status, code } => {
            out.extend_from_slice(tag.as_slice())?;
            out.push(b' ')?;
            push_status_line(out, *status, code)
        }
        Response::Untagged { status, code } => {
            out.extend_from_slice(b"* ")?;
            push_status_line(out, *status, code)
        }
        Response::Continue => out.extend_from_slice(b"+ go\r\n"),
        Response::Capability(words) => push_words(out, b"* CAPABILITY", words),
        Response::Enabled(words) => push_words(out, b"* ENABLED", words),
        Response::List {
            attributes,
            delimiter,
            name,
        } => push_list(out, attributes, *delimiter, name.as_slice()),
        Response::StatusItems { name, items } => push_status(out, name.as_slice(), items),
        Response::Flags(flags) => push_flags(out, flags),
        Response::Exists(count) => push_numbered(out, *count, b" EXISTS\r\n"),
        Response::Expunge(seq) => push_numbered(out, *seq, b" EXPUNGE\r\n"),
        Response::Fetch { seq, items } => push_fetch(out, *seq, items),
        Response::Vanished { earlier, uids } => push_vanished(out, *earlier, uids),
        Response::Other => out.extend_from_slice(b"* NOTHING\r\n"),
    }
}
