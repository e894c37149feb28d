// The APPEND of an Email that is to be created (RFC 9051 section 6.3.12).
ghost use Rattle.std.specs.Prelude.{◌≡◌, IfOk};
ghost use Rattle.email_creation.specs.Appends.{DrawsCreation, append_of};

use crate::ready::ReadyCreation;
use imap_types::Command;
use mail_drafts::BuildError;
use message_texts::build;
use octets::{Bytes, Listed, Names};
use set_jobs::{Done, Job, SetError, Step};
use std::alloc::{AllocError, Global};

/// The job of one APPEND.
pub fn append_job(
    alloc: Global,
    name: Bytes,
    flags: Names,
    date: i64,
    message: Bytes,
) -> Result<Job, AllocError>
    ensures { IfOk result (λ job. job ≡ append_of name flags date message) }
{
    let mut steps = Listed::from_vec(Vec::new(alloc));
    steps.push(Step::Change(Command::Append {
        name,
        flags,
        date,
        message,
    }))?;
    Ok(Job {
        steps,
        done: Done::Not(SetError::NotFound),
    })
}

/// What a creation that passes its checks is to do, at the second `now` since 1970-01-01T00:00:00Z, with an id of the word where its
/// draft has none; or `TooLarge`.
pub fn draw_creation(
    alloc: Global,
    ready: ReadyCreation,
    now: i64,
    word: u64,
) -> Result<Result<Job, SetError>, AllocError>
    ensures { IfOk result (DrawsCreation ready now word) }
{
    match build(alloc, &ready.draft, now, word) {
        Ok(message) => {
            let ReadyCreation {
                name,
                draft: _,
                flags,
                date,
            } = ready;
            let date = date.unwrap_or(now);
            Ok(Ok(append_job(alloc, name, flags, date, message)?))
        }
        Err(BuildError::TooLarge { size: _ }) => Ok(Err(SetError::TooLarge)),
        Err(BuildError::Memory) => Err(AllocError),
        Err(BuildError::BadValue { property: _ }) | Err(BuildError::BlobNotFound { ids: _ }) =>
            unreachable!(),
    }
}
