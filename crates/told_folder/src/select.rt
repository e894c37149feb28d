// What a SELECT tells of its folder (RFC 9051 section 6.3.2, RFC 7162 sections 3.1.2 and 3.2.11).
ghost use Rattle.std.specs.List.{list_any};
ghost use Rattle.std.specs.Prelude.{◌≡◌, ℕ};
ghost use Rattle.told_folder.specs.Select as told;
ghost use Rattle.told_folder.specs.Select.{last_told, selected_as};
ghost use Rattle.told_folder.specs.Keyed.{Ascends};
ghost use Rattle.told_folder.specs.Folders.{uid_of};
ghost use Rattle.told_folder.specs.FolderTelling.{held_of, Steps};

use crate::Folder;
use crate::puts::one_more;
use crate::telling::{FolderTelling, tell_gone};
use crate::uids::AllUids;
use imap_types::{Code, Response, Status};
use std::alloc::Global;

fn is_closed(response: &Response) -> bool
    ensures { result ≡ told.is_closed response.now }
{
    match response {
        Response::Untagged {
            status: Status::Ok,
            code: Code::Closed,
        } => true,
        _ => false,
    }
}

/// The responses after the last CLOSED; all where there is none.
pub fn after_closed(responses: &[Response]) -> &[Response]
    ensures { result.now ≡ told.after_closed responses.now }
{
    let mut after = responses;
    for (at, response) in responses.iter().enumerate() {
        if is_closed(response) {
            after = responses.split_at(at + 1).1;
        }
    }
    after
}

fn validity_in(response: &Response) -> Option<u32>
    ensures { result ≡ told.validity_in response.now }
{
    match response {
        Response::Untagged {
            status: Status::Ok,
            code: Code::UidValidity(validity),
        } => Some(*validity),
        _ => None,
    }
}

/// The last UIDVALIDITY that is told, else this one.
fn validity_told(validity: u32, responses: &[Response]) -> u32
    ensures { result ≡ last_told told.validity_in validity responses.now }
{
    let mut last = validity;
    for response in responses {
        if let Some(validity) = validity_in(response) {
            last = validity;
        }
    }
    last
}

fn modseq_in(response: &Response) -> Option<u64>
    ensures { result ≡ told.modseq_in response.now }
{
    match response {
        Response::Untagged {
            status: Status::Ok,
            code: Code::HighestModSeq(modseq),
        } => Some(*modseq),
        _ => None,
    }
}

fn denies_modseq(response: &Response) -> bool
    ensures { result ≡ told.denies_modseq response.now }
{
    match response {
        Response::Untagged {
            status: Status::Ok,
            code: Code::NoModSeq,
        } => true,
        _ => false,
    }
}

/// The last HIGHESTMODSEQ that is told; 0 where none is.
fn last_modseq(responses: &[Response]) -> u64
    ensures { result ≡ last_told told.modseq_in 0 responses.now }
{
    let mut last = 0;
    for response in responses {
        if let Some(modseq) = modseq_in(response) {
            last = modseq;
        }
    }
    last
}

fn is_denied(responses: &[Response]) -> bool
    ensures { result ≡ list_any told.denies_modseq responses.now }
{
    responses.iter().any(|response| denies_modseq(response))
}

/// 0 where the folder has no mod-sequences.
fn modseq_told(responses: &[Response]) -> u64
    ensures { result ≡ told.modseq_told responses.now }
{
    if is_denied(responses) {
        0
    } else {
        last_modseq(responses)
    }
}

/// Under another validity the folder is another, of which nothing is known.
fn set_validity(alloc: Global, work: &mut FolderTelling, folder: &mut Folder, validity: u32)
    requires { Ascends uid_of work.old.messages }
    ensures { Steps work.old work.new folder.old folder.new (told.under validity (held_of work.old folder.old)) }
{
    if validity != folder.validity {
        folder.validity = validity;
        folder.next = 1;
        tell_gone(alloc, work, &AllUids);
        work.changes = one_more(work.changes);
    }
}

fn set_modseq(work: &mut FolderTelling, folder: &mut Folder, modseq: u64)
    ensures { Steps work.old work.new folder.old folder.new (told.with_modseq modseq (held_of work.old folder.old)) }
{
    if modseq != folder.modseq {
        folder.modseq = modseq;
        work.changes = one_more(work.changes);
    }
}

/// The codes of a SELECT.
pub fn tell_select(
    alloc: Global,
    work: &mut FolderTelling,
    folder: &mut Folder,
    responses: &[Response],
)
    requires { Ascends uid_of work.old.messages }
    ensures { Steps work.old work.new folder.old folder.new (selected_as responses.now (held_of work.old folder.old)) }
{
    let validity = validity_told(folder.validity, responses);
    set_validity(alloc, work, folder, validity);
    set_modseq(work, folder, modseq_told(responses));
}
