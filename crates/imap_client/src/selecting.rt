// A folder is selected (RFC 9051 section 6.3.2, RFC 7162 section 3.2.5).
ghost use Rattle.std.specs.Prelude.{◌≡◌, IfOk};
ghost use Rattle.std.specs.List.{filter_map};
ghost use Rattle.told_folder.specs.Keyed.{last_of};
ghost use Rattle.told_mail.specs.Exchanges as telling;
ghost use Rattle.imap_client.specs.Selecting as selecting;

use crate::plan::Due;
use imap_types::{Code, Command, Response, Status};
use std::alloc::AllocError;
use told_mail::{Folder, after_closed};

/// The validity and the mod-sequence up to which the folder is known.
fn known_of(folder: &Folder) -> Option<(u32, u64)>
    ensures { result ≡ selecting.known_folder folder.now }
{
    if folder.validity == 0 || folder.modseq == 0 {
        None
    } else {
        Some((folder.validity, folder.modseq))
    }
}

/// The SELECT of a folder.
pub fn select_of(folder: &Folder) -> Result<Due, AllocError>
    ensures { IfOk result (λ due. due ≡ selecting.select_of folder.now) }
{
    Ok(Due::Send(Command::Select {
        name: folder.name.share()?,
        known: known_of(folder),
    }))
}

fn validity_in(response: &Response) -> Option<u32>
    ensures { result ≡ telling.validity_in response.now }
{
    match response {
        Response::Untagged {
            status: Status::Ok,
            code: Code::UidValidity(validity),
        } => Some(*validity),
        _ => None,
    }
}

/// The last UIDVALIDITY that these responses tell.
fn last_validity(responses: &[Response]) -> Option<u32>
    ensures { result ≡ last_of (filter_map telling.validity_in responses.now) }
{
    let mut last = None;
    for response in responses {
        if let Some(validity) = validity_in(response) {
            last = Some(validity);
        }
    }
    last
}

/// Whether a SELECT tells a UIDVALIDITY of its folder.
pub fn tells_validity(responses: &[Response]) -> bool
    ensures { result ≡ selecting.tells_validity responses.now }
{
    last_validity(after_closed(responses)).is_some()
}

/// Whether a SELECT tells the UIDVALIDITY under which its folder is kept.
pub fn tells_kept(validity: u32, responses: &[Response]) -> bool
    ensures { result ≡ selecting.tells_kept validity responses.now }
{
    match last_validity(after_closed(responses)) {
        Some(told) => told == validity,
        None => false,
    }
}
