// What a creation comes to, as text.
use imap_types::Command;
use octets::{Listed, Text};
use set_jobs::{Job, SetError, Step};
use std::alloc::AllocError;
use test_rows::put_octets;

fn put_texts(texts: &Listed<Text>, out: &mut String) -> Result<(), AllocError> {
    for text in texts.as_slice() {
        out.push(' ')?;
        put_octets(out, text.as_str().as_bytes())?;
    }
    Ok(())
}

/// Adds why a creation is refused.
pub(crate) fn put_refusal(error: &SetError, out: &mut String) -> Result<(), AllocError> {
    match error {
        SetError::InvalidProperties { properties } => {
            out.push_str("invalidProperties:")?;
            put_texts(properties, out)
        }
        SetError::BlobNotFound { ids } => {
            out.push_str("blobNotFound:")?;
            put_texts(ids, out)
        }
        other => write!(out, "{other:?}"),
    }
}

/// Adds the lines of a message.
fn put_lines(octets: &[u8], out: &mut String) -> Result<(), AllocError> {
    for line in octets.split(|octet| *octet == b'\n') {
        let text = line.strip_suffix(b"\r").unwrap_or(line);
        if !text.is_empty() {
            out.push_str("\n  | ")?;
            put_octets(out, text)?;
        }
    }
    Ok(())
}

/// Adds a command: its folder, flags and date, and how many octets its message has; the message's lines too, where they are asked.
fn put_command(command: &Command, lines: bool, out: &mut String) -> Result<(), AllocError> {
    let Command::Append {
        name,
        flags,
        date,
        message,
    } = command
    else {
        return out.push_str("another command");
    };
    out.push_str("APPEND ")?;
    put_octets(out, name.as_slice())?;
    out.push_str(" (")?;
    for flag in flags.as_slice() {
        put_octets(out, flag.as_slice())?;
        out.push(' ')?;
    }
    write!(out, ") at {date} of {} octets", message.as_slice().len())?;
    if lines {
        put_lines(message.as_slice(), out)?;
    }
    Ok(())
}

/// Adds what a job is to do.
pub(crate) fn put_job(job: &Job, lines: bool, out: &mut String) -> Result<(), AllocError> {
    for step in job.steps.as_slice() {
        match step {
            Step::Change(command) => put_command(command, lines, out)?,
            _ => out.push_str("another step")?,
        }
    }
    Ok(())
}
