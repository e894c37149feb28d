// Status lines and their codes (RFC 9051 section 7.1).
ghost use Rattle.std.specs.Prelude.{◌≡◌, ◌++◌, OnOk};
ghost use Rattle.store_responses.specs.ResponseTexts as texts;

use crate::numbers::{push_number, push_ranges};
use imap_types::{Code, Status};
use std::alloc::AllocError;

/// The word of a status.
fn status_text(status: Status) -> &'static [u8]
    ensures { result.now ≡ texts.status_text status }
{
    match status {
        Status::Ok => b"OK",
        Status::No => b"NO",
        Status::Bad => b"BAD",
        Status::Preauth => b"PREAUTH",
        Status::Bye => b"BYE",
    }
}

/// Adds what stands between the brackets of a code (RFC 9051 section 7.1, RFC 4315 section 3, RFC 7162 sections 3.1.2 and 3.2.11).
fn push_code_words(out: &mut Vec<u8>, code: &Code) -> Result<(), AllocError>
    ensures { OnOk result (out.new.items ≡ out.old.items ++ texts.code_words code.now) }
{
    match code {
        Code::Absent => Ok(()),
        Code::UidValidity(n) => push_number(out, b"UIDVALIDITY ", u64::from(*n)),
        Code::UidNext(n) => push_number(out, b"UIDNEXT ", u64::from(*n)),
        Code::HighestModSeq(n) => push_number(out, b"HIGHESTMODSEQ ", *n),
        Code::NoModSeq => out.extend_from_slice(b"NOMODSEQ"),
        Code::Closed => out.extend_from_slice(b"CLOSED"),
        Code::AppendUid { validity, uid } => {
            push_number(out, b"APPENDUID ", u64::from(*validity))?;
            push_number(out, b" ", u64::from(*uid))
        }
        Code::CopyUid { validity, from, to } => {
            push_number(out, b"COPYUID ", u64::from(*validity))?;
            out.push(b' ')?;
            push_ranges(out, from.ranges.as_slice())?;
            out.push(b' ')?;
            push_ranges(out, to.ranges.as_slice())
        }
        Code::OverQuota => out.extend_from_slice(b"OVERQUOTA"),
        Code::Other => out.extend_from_slice(b"READ-WRITE"),
    }
}

/// Adds a space and the code in brackets, where there is one.
fn push_code(out: &mut Vec<u8>, code: &Code) -> Result<(), AllocError>
    ensures { OnOk result (out.new.items ≡ out.old.items ++ texts.code_text code.now) }
{
    if *code == Code::Absent {
        return Ok(());
    }
    out.extend_from_slice(b" [")?;
    push_code_words(out, code)?;
    out.push(b']')?;
    Ok(())
}

/// Adds what follows a tag and a space, or `* `.
pub fn push_status_line(out: &mut Vec<u8>, status: Status, code: &Code) -> Result<(), AllocError>
    ensures { OnOk result (out.new.items ≡ out.old.items ++ texts.status_line_text status code.now) }
{
    out.extend_from_slice(status_text(status))?;
    push_code(out, code)?;
    out.extend_from_slice(b" done\r\n")?;
    Ok(())
}
