// Commands by their texts.
use imap_commands::Command;
use octets::{Bytes, Names};
use std::alloc::{AllocError, Global};
use test_rows::{first_uid, first_word, octets_of};

/// When messages are told to have come: 2 January 2024, 09:00:00 UTC.
const DATE: i64 = 1_704_186_000;

/// The octets of a text, in which `%` and two hexadecimal digits stand for one octet.
pub fn bytes_of(alloc: Global, text: &str) -> Result<Bytes, AllocError> {
    Bytes::from_vec(octets_of(alloc, text)?)
}

fn select_of(alloc: Global, name: &str) -> Result<Command, AllocError> {
    Ok(Command::Select {
        name: bytes_of(alloc, name)?,
        known: None,
    })
}

fn append_of(alloc: Global, text: &str) -> Result<Command, AllocError> {
    let (name, message) = first_word(text);
    Ok(Command::Append {
        name: bytes_of(alloc, name)?,
        flags: Names::new(alloc),
        date: DATE,
        message: bytes_of(alloc, message)?,
    })
}

fn slice_of(text: &str) -> Command {
    let (from, rest) = first_uid(text);
    let (to, _) = first_uid(rest);
    let modseq = true;
    Command::FetchSlice { from, to, modseq }
}

fn new_of(text: &str) -> Command {
    let (from, _) = first_uid(text);
    let modseq = true;
    Command::FetchNew { from, modseq }
}

/// The command that a text asks: `list`, `select NAME`, `flags`, `slice UID UID`, `new UID`, `unselect`, or
/// `append NAME MESSAGE`, of a message without flags that came on 2 January 2024. Folders are asked with mod-sequences.
pub fn command_of(alloc: Global, text: &str) -> Result<Option<Command>, AllocError> {
    let (word, rest) = first_word(text);
    match word {
        "list" => Ok(Some(Command::List { special_use: false })),
        "select" => Ok(Some(select_of(alloc, rest)?)),
        "flags" => Ok(Some(Command::FetchFlags)),
        "slice" => Ok(Some(slice_of(rest))),
        "new" => Ok(Some(new_of(rest))),
        "unselect" => Ok(Some(Command::Unselect)),
        "append" => Ok(Some(append_of(alloc, rest)?)),
        _ => Ok(None),
    }
}
