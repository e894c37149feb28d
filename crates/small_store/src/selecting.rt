// SELECT (RFC 9051 section 6.3.2, RFC 7162 section 3.2.5).
ghost use Rattle.std.specs.Prelude.{◌≡◌, ◌++◌, ℕ, Option, OnOk, IfOk, map, filter, nat_lt, true};
ghost use Rattle.imap_types.specs.declared.code.Code.TheVariants as codes;
ghost use Rattle.imap_types.specs.declared.response.Response.TheVariants as response;
ghost use Rattle.honest_store.specs.WellFormed.{IsStoreFolder};
ghost use Rattle.small_answers.specs.ToldResponses as told;

use crate::fetches::{Asked, Which, push_fetches};
use crate::told::{list_response, ok_response, system_flags, vanished};
use imap_types::{Code, Response};
use small_mail::StoredFolder;
use std::alloc::{AllocError, Global};

/// Adds what a SELECT tells of the folder in any case.
fn push_folder(
    alloc: Global,
    responses: &mut Vec<Response>,
    folder: &StoredFolder,
) -> Result<(), AllocError>
    requires { IsStoreFolder folder.now }
    ensures { OnOk result (responses.new.items ≡ responses.old.items ++ told.folder_responses folder.now) }
{
    responses.push(Response::Flags(system_flags(alloc)?))?;
    responses.push(list_response(alloc, folder)?)?;
    responses.push(Response::Exists(folder.messages().len() as u32))?;
    responses.push(ok_response(Code::UidValidity(folder.validity())))?;
    responses.push(ok_response(Code::UidNext(folder.uid_next())))?;
    responses.push(ok_response(Code::HighestModSeq(folder.highest())))?;
    Ok(())
}

/// Adds a VANISHED for each UID that went since the mod-sequence.
fn push_expunged(
    alloc: Global,
    responses: &mut Vec<Response>,
    folder: &StoredFolder,
    since: u64,
) -> Result<(), AllocError>
    ensures { OnOk result (responses.new.items
        ≡ responses.old.items ++ map (λ e. response.Vanished true (told.set_of e.uid)) (filter (λ e. nat_lt since e.modseq) folder.now.expunged)) }
{
    for expunged in folder.expunged() {
        if since < expunged.modseq() {
            responses.push(vanished(alloc, true, expunged.uid())?)?;
        }
    }
    Ok(())
}

/// Adds what changed in the folder, where the client knows it under its UIDVALIDITY.
fn push_changes(
    alloc: Global,
    responses: &mut Vec<Response>,
    folder: &StoredFolder,
    known: Option<(u32, u64)>,
) -> Result<(), AllocError>
    requires { IsStoreFolder folder.now }
    ensures { OnOk result (responses.new.items ≡ responses.old.items ++ told.known_changes folder.now known) }
{
    let Some((validity, since)) = known else {
        return Ok(());
    };
    if validity != folder.validity() {
        return Ok(());
    }
    push_expunged(alloc, responses, folder, since)?;
    let changed = Which::ChangedSince { modseq: since };
    push_fetches(alloc, responses, folder.messages(), changed, Asked::Change)
}

/// What a SELECT tells of the folder that was selected.
pub fn closed_responses(alloc: Global, selected: Option<u32>) -> Result<Vec<Response>, AllocError>
    ensures { IfOk result (λ rs. rs.items ≡ told.closed_responses selected) }
{
    let mut responses = Vec::new(alloc);
    if selected.is_some() {
        responses.push(ok_response(Code::Closed))?;
    }
    Ok(responses)
}

/// What a SELECT of the folder tells, while a folder is selected or none.
pub fn select_responses(
    alloc: Global,
    folder: &StoredFolder,
    selected: Option<u32>,
    known: Option<(u32, u64)>,
) -> Result<Vec<Response>, AllocError>
    requires { IsStoreFolder folder.now }
    ensures { IfOk result (λ rs. rs.items ≡ told.select_responses selected folder.now known) }
{
    let mut responses = closed_responses(alloc, selected)?;
    push_folder(alloc, &mut responses, folder)?;
    push_changes(alloc, &mut responses, folder, known)?;
    Ok(responses)
}
