// The texts of commands.
use imap_commands::{Command, Piece, write_command};
use octets::Names;
use std::alloc::{AllocError, Global};
use test_rows::{first_number, first_uid, first_word, put_octets};
use told_dialogues::bytes_of;

fn flags_of(alloc: Global, text: &str) -> Result<Names, AllocError> {
    let mut flags = Names::new(alloc);
    for flag in text.split_whitespace() {
        flags.push(bytes_of(alloc, flag)?)?;
    }
    Ok(flags)
}

fn login_of(alloc: Global, text: &str) -> Result<Command, AllocError> {
    let (user, password) = first_word(text);
    Ok(Command::Login {
        user: bytes_of(alloc, user)?,
        password: bytes_of(alloc, password)?,
    })
}

fn known_of(alloc: Global, text: &str) -> Result<Command, AllocError> {
    let (validity, text) = first_uid(text);
    let (modseq, name) = first_number(text);
    Ok(Command::Select {
        name: bytes_of(alloc, name)?,
        known: Some((validity, modseq)),
    })
}

fn store_of(alloc: Global, text: &str, add: bool) -> Result<Command, AllocError> {
    let (uid, text) = first_uid(text);
    let flags = flags_of(alloc, text)?;
    Ok(Command::Store { uid, add, flags })
}

fn move_of(alloc: Global, text: &str) -> Result<Command, AllocError> {
    let (uid, name) = first_uid(text);
    let name = bytes_of(alloc, name)?;
    Ok(Command::Move { uid, name })
}

/// Of a message of CR and LF to Drafts, a draft.
fn append_of(alloc: Global, date: &str) -> Result<Command, AllocError> {
    Ok(Command::Append {
        name: bytes_of(alloc, "Drafts")?,
        flags: flags_of(alloc, "\\draft")?,
        date: date.parse::<i64>().unwrap_or(0),
        message: bytes_of(alloc, "%0D%0A")?,
    })
}

fn rename_of(alloc: Global, text: &str) -> Result<Command, AllocError> {
    let (from, to) = first_word(text);
    Ok(Command::Rename {
        from: bytes_of(alloc, from)?,
        to: bytes_of(alloc, to)?,
    })
}

/// A fetch of headers without mod-sequences: of a slice, or of what is new.
fn plain_fetch_of(word: &str, text: &str) -> Command {
    let (from, rest) = first_uid(text);
    let (to, _) = first_uid(rest);
    let modseq = false;
    match word {
        "plain-slice" => Command::FetchSlice { from, to, modseq },
        _ => Command::FetchNew { from, modseq },
    }
}

/// A command of one UID, or of none.
fn short_of(word: &str, text: &str) -> Option<Command> {
    let (uid, _) = first_uid(text);
    match word {
        "capability" => Some(Command::Capability),
        "enable" => Some(Command::Enable),
        "list-special-use" => Some(Command::List { special_use: true }),
        "body" => Some(Command::FetchBody { uid }),
        "expunge" => Some(Command::Expunge { uid }),
        "plain-slice" | "plain-new" => Some(plain_fetch_of(word, text)),
        _ => None,
    }
}

/// A command of one folder.
fn folder_of(alloc: Global, word: &str, text: &str) -> Result<Option<Command>, AllocError> {
    let name = bytes_of(alloc, text)?;
    Ok(match word {
        "create" => Some(Command::Create { name }),
        "delete" => Some(Command::Delete { name }),
        "subscribe" => Some(Command::Subscribe { name, on: true }),
        "unsubscribe" => Some(Command::Subscribe { name, on: false }),
        _ => None,
    })
}

/// A command with octets of its own.
fn long_of(alloc: Global, word: &str, text: &str) -> Result<Option<Command>, AllocError> {
    match word {
        "login" => Ok(Some(login_of(alloc, text)?)),
        "known" => Ok(Some(known_of(alloc, text)?)),
        "set" => Ok(Some(store_of(alloc, text, true)?)),
        "take" => Ok(Some(store_of(alloc, text, false)?)),
        "move" => Ok(Some(move_of(alloc, text)?)),
        "draft" => Ok(Some(append_of(alloc, text)?)),
        "rename" => Ok(Some(rename_of(alloc, text)?)),
        _ => folder_of(alloc, word, text),
    }
}

/// The command that a text asks.
pub(crate) fn command_of(alloc: Global, text: &str) -> Result<Option<Command>, AllocError> {
    let (word, rest) = first_word(text);
    if let Some(command) = short_of(word, rest) {
        return Ok(Some(command));
    }
    if let Some(command) = told_dialogues::command_of(alloc, text)? {
        return Ok(Some(command));
    }
    long_of(alloc, word, rest)
}

fn put_piece(out: &mut String, piece: &Piece<'_>) -> Result<(), AllocError> {
    let (literal, text) = piece.parts();
    out.push('|')?;
    put_octets(out, literal)?;
    put_octets(out, text)
}

/// Adds the pieces of the command under the tag of this number, with `|` before each.
pub(crate) fn put_text(
    alloc: Global,
    command: &Command,
    tag: u64,
    out: &mut String,
) -> Result<(), AllocError> {
    for piece in &write_command(alloc, command, tag)? {
        put_piece(out, piece)?;
    }
    Ok(())
}

/// Adds the pieces in which a command is written, with `|` before each.
pub(crate) fn put_command(alloc: Global, text: &str, out: &mut String) -> Result<(), AllocError> {
    let (tag, text) = first_number(text);
    match command_of(alloc, text)? {
        Some(command) => {
            put_text(alloc, &command, tag, out)?;
            out.push('\n')
        }
        None => writeln!(out, "no command"),
    }
}
