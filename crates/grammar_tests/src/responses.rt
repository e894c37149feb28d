// What responses say.
use crate::kinds::{is_whole, kind_of};
use imap_grammar::{FetchItems, Response};
use octets::{Bytes, Names};
use std::alloc::{AllocError, Global};
use test_rows::{first_number, first_uid, octets_of, put_octets};
use told_dialogues::first_response;

/// Adds texts with `|` before each.
pub(crate) fn put_joined(out: &mut String, texts: &[Bytes]) -> Result<(), AllocError> {
    for text in texts {
        out.push('|')?;
        put_octets(out, text.as_slice())?;
    }
    Ok(())
}

fn put_names(out: &mut String, names: &Names) -> Result<(), AllocError> {
    if names.is_empty() {
        return out.push_str("no names");
    }
    out.push_str("names ")?;
    put_joined(out, names.as_slice())
}

/// Adds what a response says that isn't of a folder or a message.
fn put_plain(out: &mut String, response: &Response) -> Result<(), AllocError> {
    match response {
        Response::Tagged { tag, status, .. } => {
            write!(out, "{status:?} ")?;
            put_octets(out, tag.as_slice())
        }
        Response::Untagged { status, .. } => write!(out, "{status:?}"),
        Response::Continue => out.push_str("continuation"),
        Response::Exists(count) => write!(out, "{count} exist"),
        Response::Expunge(number) => write!(out, "{number} is gone"),
        Response::Vanished { earlier, uids } => write!(out, "{earlier} {:?}", uids.ranges),
        Response::Other => out.push_str("other"),
        _ => out.push_str("something else"),
    }
}

fn put_flags(out: &mut String, flags: &Option<Names>) -> Result<(), AllocError> {
    match flags {
        Some(flags) => put_names(out, flags),
        None => out.push_str("no flags"),
    }
}

/// Adds what a response says, of a message its number, UID and flags.
fn put_response(out: &mut String, response: &Response) -> Result<(), AllocError> {
    match response {
        Response::Capability(names) => put_names(out, names),
        Response::Enabled(names) => put_names(out, names),
        Response::Flags(names) => put_names(out, names),
        Response::List {
            attributes,
            delimiter,
            name,
        } => {
            put_octets(out, name.as_slice())?;
            write!(out, " {delimiter:?} ")?;
            put_names(out, attributes)
        }
        Response::StatusItems { name, items } => {
            put_octets(out, name.as_slice())?;
            write!(out, " {items:?}")
        }
        Response::Fetch { seq, items } => {
            write!(out, "{seq} {:?} ", items.uid)?;
            put_flags(out, &items.flags)
        }
        _ => put_plain(out, response),
    }
}

fn put_code(out: &mut String, response: &Response) -> Result<(), AllocError> {
    match response {
        Response::Tagged { code, .. } => write!(out, "{code:?}"),
        Response::Untagged { code, .. } => write!(out, "{code:?}"),
        _ => out.push_str("no status line"),
    }
}

/// Adds whether the set that the response tells holds this UID, and which is the only one that it holds.
fn put_held(out: &mut String, response: &Response, uid: u32) -> Result<(), AllocError> {
    match response {
        Response::Vanished { uids, .. } => write!(out, "{} {:?}", uids.contains(uid), uids.only()),
        _ => out.push_str("no set"),
    }
}

fn put_text(out: &mut String, text: &Option<Bytes>) -> Result<(), AllocError> {
    match text {
        Some(text) => {
            out.push_str(" |")?;
            put_octets(out, text.as_slice())
        }
        None => out.push_str(" none"),
    }
}

fn length_of(text: &Option<Bytes>) -> usize {
    match text {
        Some(text) => text.as_slice().len(),
        None => 0,
    }
}

/// Adds what is told of a message, as the word asks.
fn put_items(out: &mut String, word: &str, items: &FetchItems) -> Result<(), AllocError> {
    match word {
        "sizes" => write!(out, "{:?} {:?}", items.modseq, items.size),
        "date" => write!(out, "{:?}", items.date),
        "texts" => {
            write!(out, "{:?}", items.uid)?;
            put_text(out, &items.header)?;
            put_text(out, &items.body)
        }
        _ => {
            let (header, body) = (length_of(&items.header), length_of(&items.body));
            write!(out, "{:?} {header} {body}", items.uid)
        }
    }
}

/// Adds what a response says, as the word asks.
fn put_asked(out: &mut String, word: &str, response: &Response) -> Result<(), AllocError> {
    match response {
        _ if word == "says" => put_response(out, response),
        _ if word == "code" => put_code(out, response),
        Response::Fetch { items, .. } => put_items(out, word, items),
        _ => out.push_str("no message"),
    }
}

/// Adds what the octets' response says, as the word asks.
fn put_octets_asked(
    alloc: Global,
    word: &str,
    octets: &[u8],
    out: &mut String,
) -> Result<(), AllocError> {
    match first_response(alloc, octets)? {
        Some((_, response)) => put_asked(out, word, &response)?,
        None => out.push_str("not whole")?,
    }
    out.push('\n')
}

/// Adds of which kind the octets' response is.
fn put_kind(alloc: Global, octets: &[u8], out: &mut String) -> Result<(), AllocError> {
    if !is_whole(octets) {
        return out.push_str("not whole\n");
    }
    match first_response(alloc, octets)? {
        Some((_, response)) => writeln!(out, "{}", kind_of(&response)),
        None => Ok(()),
    }
}

/// Adds what a set holds.
fn put_set(alloc: Global, text: &str, out: &mut String) -> Result<(), AllocError> {
    let (uid, text) = first_uid(text);
    let octets = line_of(alloc, text)?;
    match first_response(alloc, &octets)? {
        Some((_, response)) => put_held(out, &response, uid)?,
        None => out.push_str("not whole")?,
    }
    out.push('\n')
}

/// A text with CR LF.
pub(crate) fn line_of(alloc: Global, text: &str) -> Result<Vec<u8>, AllocError> {
    let mut octets = octets_of(alloc, text)?;
    octets.extend_from_slice(b"\r\n")?;
    Ok(octets)
}

/// Adds what a line's response says, as the word asks.
pub(crate) fn put_row(
    alloc: Global,
    word: &str,
    text: &str,
    out: &mut String,
) -> Result<(), AllocError> {
    match word {
        "holds" => put_set(alloc, text, out),
        "kind" => put_kind(alloc, &line_of(alloc, text)?, out),
        _ => put_octets_asked(alloc, word, &line_of(alloc, text)?, out),
    }
}

/// A FETCH of an item with so many octets, and of UID 7.
fn long_item(alloc: Global, name: &str, count: usize) -> Result<Vec<u8>, AllocError> {
    let front = format!(in alloc; "* 1 FETCH ({name} {{{count}}}\r\n")?;
    let mut octets = front.as_bytes().to_vec(alloc)?;
    octets.resize(octets.len().saturating_add(count), b'a')?;
    octets.extend_from_slice(b" UID 7)\r\n")?;
    Ok(octets)
}

/// Adds the UID of a message with a long item, and how many octets of a header and of a body are told.
pub(crate) fn put_long(alloc: Global, text: &str, out: &mut String) -> Result<(), AllocError> {
    let (count, name) = first_number(text);
    let octets = long_item(alloc, name, usize::try_from(count).unwrap_or(0))?;
    put_octets_asked(alloc, "lengths", &octets, out)
}
