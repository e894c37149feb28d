// Steps of jobs by their texts.
use imap_types::Command;
use octets::{Bytes, Names};
use set_jobs::Step;
use std::alloc::{AllocError, Global};
use test_rows::{first_number, first_uid, first_word, octets_of};

/// When messages are told to have come: 2 January 2024, 09:00:00 UTC.
const DATE: i64 = 1_704_186_000;

fn bytes_of(alloc: Global, text: &str) -> Result<Bytes, AllocError> {
    Bytes::from_vec(octets_of(alloc, text)?)
}

fn select_of(text: &str) -> Step {
    let (folder, rest) = first_number(text);
    let (mark, _) = first_number(rest);
    Step::Select { folder, mark }
}

fn list_of(alloc: Global, text: &str) -> Result<Step, AllocError> {
    Ok(Step::List {
        name: bytes_of(alloc, text)?,
        special_use: false,
    })
}

fn made_of(alloc: Global, text: &str) -> Result<Step, AllocError> {
    Ok(Step::SelectMade {
        name: bytes_of(alloc, text)?,
    })
}

fn reading_step(alloc: Global, word: &str, text: &str) -> Result<Option<Step>, AllocError> {
    match word {
        "select" => Ok(Some(select_of(text))),
        "unselect" => Ok(Some(Step::Unselect)),
        "list" => Ok(Some(list_of(alloc, text)?)),
        "made" => Ok(Some(made_of(alloc, text)?)),
        _ => Ok(None),
    }
}

fn store_of(alloc: Global, add: bool, text: &str) -> Result<Step, AllocError> {
    let (uid, flag) = first_uid(text);
    let mut flags = Names::new(alloc);
    flags.push(bytes_of(alloc, flag)?)?;
    Ok(Step::Change(Command::Store { uid, add, flags }))
}

fn move_of(alloc: Global, text: &str) -> Result<Step, AllocError> {
    let (uid, name) = first_uid(text);
    let name = bytes_of(alloc, name)?;
    Ok(Step::Change(Command::Move { uid, name }))
}

fn append_of(alloc: Global, text: &str) -> Result<Step, AllocError> {
    let (name, message) = first_word(text);
    Ok(Step::Change(Command::Append {
        name: bytes_of(alloc, name)?,
        flags: Names::new(alloc),
        date: DATE,
        message: bytes_of(alloc, message)?,
    }))
}

fn message_step(alloc: Global, word: &str, text: &str) -> Result<Option<Step>, AllocError> {
    let (uid, _) = first_uid(text);
    match word {
        "set" => Ok(Some(store_of(alloc, true, text)?)),
        "unset" => Ok(Some(store_of(alloc, false, text)?)),
        "move" => Ok(Some(move_of(alloc, text)?)),
        "append" => Ok(Some(append_of(alloc, text)?)),
        "delete" => Ok(Some(Step::Delete { uid })),
        "expunge" => Ok(Some(Step::Expunge { uid })),
        _ => Ok(None),
    }
}

fn rename_of(alloc: Global, text: &str) -> Result<Command, AllocError> {
    let (from, to) = first_word(text);
    Ok(Command::Rename {
        from: bytes_of(alloc, from)?,
        to: bytes_of(alloc, to)?,
    })
}

fn subscribe_of(alloc: Global, on: bool, text: &str) -> Result<Command, AllocError> {
    Ok(Command::Subscribe {
        name: bytes_of(alloc, text)?,
        on,
    })
}

fn create_of(alloc: Global, text: &str) -> Result<Command, AllocError> {
    Ok(Command::Create {
        name: bytes_of(alloc, text)?,
    })
}

fn delete_of(alloc: Global, text: &str) -> Result<Command, AllocError> {
    Ok(Command::Delete {
        name: bytes_of(alloc, text)?,
    })
}

fn folder_command(alloc: Global, word: &str, text: &str) -> Result<Option<Command>, AllocError> {
    match word {
        "create" => Ok(Some(create_of(alloc, text)?)),
        "remove" => Ok(Some(delete_of(alloc, text)?)),
        "rename" => Ok(Some(rename_of(alloc, text)?)),
        "subscribe" => Ok(Some(subscribe_of(alloc, true, text)?)),
        "unsubscribe" => Ok(Some(subscribe_of(alloc, false, text)?)),
        _ => Ok(None),
    }
}

/// The step that a line says: `select FOLDER MARK`, `unselect`, `list NAME`, `made NAME`; `set UID FLAG`, `unset UID FLAG`,
/// `move UID NAME`, `append NAME MESSAGE`, `delete UID`, `expunge UID`; `create NAME`, `remove NAME`, `rename FROM TO`,
/// `subscribe NAME`, `unsubscribe NAME`.
pub(crate) fn step_of(alloc: Global, word: &str, text: &str) -> Result<Option<Step>, AllocError> {
    if let Some(step) = reading_step(alloc, word, text)? {
        return Ok(Some(step));
    }
    if let Some(step) = message_step(alloc, word, text)? {
        return Ok(Some(step));
    }
    match folder_command(alloc, word, text)? {
        Some(command) => Ok(Some(Step::Change(command))),
        None => Ok(None),
    }
}
