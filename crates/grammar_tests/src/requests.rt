// What a client's octets ask of a store.
use crate::commands::{command_of, put_text};
use imap_commands::{Command, Piece, write_command};
use std::alloc::{AllocError, Global};
use store_commands::{CommandRead, read_command};
use test_rows::{first_number, octets_of, put_octets};

/// Adds an answer; a command as the gateway writes it under tag 1.
fn put_answer(alloc: Global, read: &CommandRead, out: &mut String) -> Result<(), AllocError> {
    match read {
        CommandRead::Whole {
            length,
            tag,
            command,
        } => {
            write!(out, "{length} ")?;
            put_octets(out, tag.as_slice())?;
            out.push(' ')?;
            put_text(alloc, command, 1, out)
        }
        CommandRead::NeedMore => out.push_str("more"),
        CommandRead::WantsLiteral => out.push_str("literal"),
        CommandRead::Bad(at) => write!(out, "bad at {at}"),
    }
}

/// How many fronts of the octets, up to the place that decides, have to begin a command.
fn fronts_of(read: &CommandRead, count: usize) -> usize {
    match read {
        CommandRead::Whole { length, .. } => *length,
        CommandRead::Bad(at) => at.saturating_add(1),
        _ => count,
    }
}

/// Adds how many of the fronts end with the head of a literal, and the fronts that begin no command.
fn put_fronts(
    alloc: Global,
    octets: &[u8],
    fronts: usize,
    out: &mut String,
) -> Result<(), AllocError> {
    let mut literals: usize = 0;
    for count in 0..fronts {
        let front = octets.get(..count).unwrap_or(octets);
        match read_command(alloc, front)? {
            CommandRead::NeedMore => {}
            CommandRead::WantsLiteral => literals = literals.saturating_add(1),
            _ => write!(out, ", but not at {count}")?,
        }
    }
    if 0 < literals {
        write!(out, ", {literals} literals")?;
    }
    Ok(())
}

/// Adds the answer to the octets, and to each front of them.
pub(crate) fn put_asked(alloc: Global, text: &str, out: &mut String) -> Result<(), AllocError> {
    let octets = octets_of(alloc, text)?;
    let read = read_command(alloc, &octets)?;
    put_answer(alloc, &read, out)?;
    put_fronts(alloc, &octets, fronts_of(&read, octets.len()), out)?;
    out.push('\n')
}

fn joined(alloc: Global, pieces: &[Piece<'_>]) -> Result<Vec<u8>, AllocError> {
    let mut octets = Vec::new(alloc);
    for piece in pieces {
        let (literal, text) = piece.parts();
        octets.extend_from_slice(literal)?;
        octets.extend_from_slice(text)?;
    }
    Ok(octets)
}

/// Whether the answer is this command, whole and with nothing behind it.
fn is_whole(read: &CommandRead, octets: &[u8], asked: &Command) -> bool {
    match read {
        CommandRead::Whole {
            length,
            command,
            ..
        } => *length == octets.len() && command == asked,
        _ => false,
    }
}

/// Adds whether the command, as it is written under the tag of this number, is read back as itself.
pub(crate) fn put_back(alloc: Global, text: &str, out: &mut String) -> Result<(), AllocError> {
    let (tag, text) = first_number(text);
    let Some(command) = command_of(alloc, text)? else {
        return writeln!(out, "no command");
    };
    let octets = joined(alloc, &write_command(alloc, &command, tag)?)?;
    let read = read_command(alloc, &octets)?;
    if is_whole(&read, &octets, &command) {
        writeln!(out, "back")
    } else {
        put_answer(alloc, &read, out)?;
        out.push('\n')
    }
}
