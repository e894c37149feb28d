// The responses by which the store tells its folders (RFC 9051 section 7, RFC 7162 section 3.2).
ghost use Rattle.std.specs.Prelude.{◌≡◌, [], ◌∷◌, IfOk, map};
ghost use Rattle.imap_types.specs.declared.response.Response.TheVariants as response;
ghost use Rattle.small_answers.specs.ToldResponses as told;

use imap_types::{Code, Response, Status, UidRange, UidSet};
use octets::{Bytes, Listed, Names};
use small_mail::StoredFolder;
use small_mail::flags::kept;
use small_mail::names::DELIMITER;
use std::alloc::{AllocError, Global};

/// The set of one UID.
pub fn set_of(alloc: Global, uid: u32) -> Result<UidSet, AllocError>
    ensures { IfOk result (λ set. set ≡ told.set_of uid) }
{
    let mut ranges = Vec::with_capacity(alloc, 1)?;
    ranges.push(UidRange {
        first: uid,
        last: uid,
    })?;
    Ok(UidSet {
        ranges: Listed::from_vec(ranges),
    })
}

/// An untagged OK with the code.
pub fn ok_response(code: Code) -> Response
    ensures { result ≡ told.ok_response code }
{
    Response::Untagged {
        status: Status::Ok,
        code,
    }
}

/// A VANISHED of the UID.
pub fn vanished(alloc: Global, earlier: bool, uid: u32) -> Result<Response, AllocError>
    ensures { IfOk result (λ r. r ≡ response.Vanished earlier (told.set_of uid)) }
{
    let uids = set_of(alloc, uid)?;
    Ok(Response::Vanished { earlier, uids })
}

/// A LIST of the folder.
pub fn list_response(alloc: Global, folder: &StoredFolder) -> Result<Response, AllocError>
    ensures { IfOk result (λ r. r ≡ told.list_response folder.now) }
{
    let attributes = folder.attributes().share(alloc)?;
    let name = folder.name().share()?;
    Ok(Response::List {
        attributes,
        delimiter: Some(DELIMITER),
        name,
    })
}

/// A LIST of each folder.
pub fn list_responses(alloc: Global, folders: &[StoredFolder]) -> Result<Vec<Response>, AllocError>
    ensures { IfOk result (λ rs. rs.items ≡ map told.list_response folders.now) }
{
    let mut responses = Vec::new(alloc);
    for folder in folders {
        responses.push(list_response(alloc, folder)?)?;
    }
    Ok(responses)
}

/// Two words.
pub fn two_names(alloc: Global, first: &[u8], second: &[u8]) -> Result<Names, AllocError>
    ensures { IfOk result (λ names. names ≡ first.now ∷ second.now ∷ []) }
{
    let mut names = Names::new(alloc);
    names.push(Bytes::copy_of(alloc, first)?)?;
    names.push(Bytes::copy_of(alloc, second)?)?;
    Ok(names)
}

/// The flags that every folder keeps (RFC 9051 section 2.3.2).
pub fn system_flags(alloc: Global) -> Result<Names, AllocError>
    ensures { IfOk result (λ names. names ≡ told.system_flags) }
{
    let mut flags = Names::new(alloc);
    flags.push(Bytes::copy_of(alloc, b"\\seen")?)?;
    flags.push(Bytes::copy_of(alloc, b"\\answered")?)?;
    flags.push(Bytes::copy_of(alloc, b"\\flagged")?)?;
    flags.push(Bytes::copy_of(alloc, b"\\draft")?)?;
    flags.push(Bytes::copy_of(alloc, b"\\deleted")?)?;
    kept(alloc, flags.as_slice(), &[])
}
