//! Mail that is read: reads rows from standard input, octets and what is asked of them, and prints what they say. The legend
//! stands at the top of the file `stdin`, and what has to come of its rows in the file `stdout`.
#![tactic(auto)]

// Octets as text.
mod written;

// What is asked of octets.
mod blobs;
mod counts;
mod emails;
mod encodings;
mod headers;
mod trees;

use std::alloc::{AllocError, Global};
use std::io;
use test_rows::{TestRows, answer_rows, first_word};
use written::Written;

/// The text up to its first `|`, and what follows that.
fn first_key(text: &str) -> (&str, &str) {
    text.split_once('|').unwrap_or((text, ""))
}

/// Adds what the octets say, where nothing else is asked of them.
fn put_plain(
    alloc: Global,
    word: &str,
    octets: &[u8],
    out: &mut String,
) -> Result<bool, AllocError> {
    match word {
        "words" => encodings::put_words(alloc, octets, out)?,
        "encode" | "encodes" => encodings::put_encoded(alloc, word, octets, out)?,
        "fields" => headers::put_count(alloc, octets, out)?,
        "part-header" => headers::put_part_header(alloc, octets, out)?,
        "tree" => trees::put_tree(alloc, octets, out)?,
        "root" => trees::put_root(alloc, octets, out)?,
        "lists" => trees::put_lists(alloc, octets, out)?,
        "list-lengths" => trees::put_list_lengths(alloc, octets, out)?,
        "blob-id" => blobs::put_id(octets, out)?,
        _ => return Ok(false),
    }
    Ok(true)
}

/// Adds what the octets say where this is asked of them.
fn put_keyed(
    alloc: Global,
    word: &str,
    key: &str,
    octets: &[u8],
    out: &mut String,
) -> Result<(), AllocError> {
    match word {
        "charset" => encodings::put_charset(alloc, key, octets, out),
        "transfer" => encodings::put_transfer(alloc, key, octets, out),
        "field" => headers::put_place(alloc, key, octets, out),
        "last" => headers::put_last(alloc, key, octets, out),
        "form" => headers::put_form(alloc, key, octets, out),
        "count" => counts::put_count(alloc, key, octets, out),
        "leaf" => trees::put_leaf(alloc, key, octets, out),
        "blob" => blobs::put_named(alloc, key, octets, out),
        "shown" => emails::put_shown(alloc, key, octets, out),
        "parsed" | "nameless" | "email" => emails::put_object(alloc, word, key, octets, out),
        _ => out.push_str("no such word"),
    }
}

/// What the rows so far have left.
#[derive(Drop)]
struct Rows {
    written: Written,
    alloc: Global,
}

impl Rows {
    /// Adds what is asked, and the answer.
    fn answer(&self, line: &str, out: &mut String) -> Result<(), AllocError> {
        let (word, rest) = first_word(line);
        write!(out, "{line} -> ")?;
        if !put_plain(self.alloc, word, &self.written.with(rest)?, out)? {
            let (key, text) = first_key(rest);
            put_keyed(self.alloc, word, key, &self.written.with(text)?, out)?;
        }
        out.push('\n')
    }
}

impl TestRows for Rows {
    fn begin(&mut self) -> Result<(), AllocError> {
        self.written.clear();
        Ok(())
    }

    fn take(&mut self, line: &str, out: &mut String) -> Result<(), AllocError> {
        let (word, rest) = first_word(line);
        match word {
            "part" | "line" | "lf" | "repeat" | "numbered" => self.written.take(word, rest),
            _ => self.answer(line, out),
        }
    }
}

fn main(rt: HostRuntime) -> io::Result<()> {
    let alloc = rt.alloc();
    let written = Written::new(alloc);
    answer_rows(&rt, &mut Rows { written, alloc })
}
