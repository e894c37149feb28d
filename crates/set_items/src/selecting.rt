// SELECT of a folder, and what it tells (RFC 9051 section 6.3.2, RFC 7162 section 3.2.5).
ghost use Rattle.std.specs.Prelude.{◌≡◌, IfOk};
ghost use Rattle.std.specs.List.{filter_map};
ghost use Rattle.std.specs.Option.{option_copied};
ghost use Rattle.told_folder.specs.Keyed.{last_of};
ghost use Rattle.told_mail.specs.Exchanges as telling;
ghost use Rattle.imap_client.specs.Bodies as bodies;
ghost use Rattle.imap_client.specs.Selecting as selecting;

use imap_client::{Due, Refusal};
use imap_types::{Code, Command, Response, Status};
use std::alloc::AllocError;
use told_mail::{Folder, after_closed};

/// The validity and the mod-sequence up to which the folder is known.
fn known_of(folder: &Folder) -> Option<(u32, u64)>
    ensures { result ≡ selecting.known_folder folder.now }
{
    if folder.validity == 0 || folder.modseq == 0 {
        None
    } else {
        Some((folder.validity, folder.modseq))
    }
}

/// The SELECT of a folder, where there is one.
pub fn select_due(folder: Option<&Folder>) -> Result<Due, AllocError>
    ensures { IfOk result (λ due. due ≡ bodies.select_due (option_copied folder.entry)) }
{
    match folder {
        Some(folder) => Ok(Due::Send(Command::Select {
            name: folder.name.share()?,
            known: known_of(folder),
        })),
        None => Ok(Due::Fails(Refusal::Lacks)),
    }
}

fn validity_in(response: &Response) -> Option<u32>
    ensures { result ≡ telling.validity_in response.now }
{
    match response {
        Response::Untagged {
            status: Status::Ok,
            code: Code::UidValidity(validity),
        } => Some(*validity),
        _ => None,
    }
}

/// The last UIDVALIDITY that these responses tell.
fn last_validity(responses: &[Response]) -> Option<u32>
    ensures { result ≡ last_of (filter_map telling.validity_in responses.now) }
{
    let mut last = None;
    for response in responses {
        if let Some(validity) = validity_in(response) {
            last = Some(validity);
        }
    }
    last
}

/// Whether a SELECT tells a UIDVALIDITY of its folder.
pub fn tells_validity(responses: &[Response]) -> bool
    ensures { result ≡ selecting.tells_validity responses.now }
{
    last_validity(after_closed(responses)).is_some()
}
