// Items are read from left to right. None says that none stands there.
ghost use Rattle.std.specs.Int.{w32, w64};
ghost use Rattle.std.specs.Prelude.{◌≡◌, IfOk, MatchOption, None, Some};
ghost use Rattle.mail_batches.specs.reading.Reading.{number_at, text_at, texts_at, some_texts_at, optional_at, some_if, folder_at, set_at, put_at, item_at, item_by, folder_item_at, set_item_at, message_gone_at, folder_gone_at};

use crate::Item;
use crate::write::{FOLDER_GONE, FOLDER_PUT, MESSAGE_GONE, MESSAGE_PUT, MESSAGE_SET};
use octets::{Bytes, Names};
use std::alloc::{AllocError, Global};
use told_mail::{Folder, Message};

fn half_of(octets: &[u8]) -> Option<(u32, &[u8])>
    ensures { MatchOption result (number_at w32 octets.now ≡ None) (λ x. number_at w32 octets.now ≡ Some (x.0, x.1.now)) }
{
    let (front, rest) = octets.split_first_chunk::<4>()?;
    Some((u32::from_be_bytes(*front), rest))
}

fn long_of(octets: &[u8]) -> Option<(u64, &[u8])>
    ensures { MatchOption result (number_at w64 octets.now ≡ None) (λ x. number_at w64 octets.now ≡ Some (x.0, x.1.now)) }
{
    let (front, rest) = octets.split_first_chunk::<8>()?;
    Some((u64::from_be_bytes(*front), rest))
}

#[tactic(auto, unfolding(crate::specs::reading::Reading::text_at))]
fn text_of(octets: &[u8]) -> Option<(&[u8], &[u8])>
    ensures { MatchOption result (text_at octets.now ≡ None) (λ x. text_at octets.now ≡ Some (x.0.now, x.1.now)) }
{
    let (len, rest) = long_of(octets)?;
    let len = len as usize;
    if rest.len() < len {
        return None;
    }
    Some(rest.split_at(len))
}

/// So many texts. A count that the octets can't have ends where they do: no memory is taken by it.
fn some_texts_of(
    alloc: Global,
    count: u64,
    octets: &[u8],
) -> Result<Option<(Names, &[u8])>, AllocError>
    ensures { IfOk result (λ o. MatchOption o (some_texts_at count octets.now ≡ None) (λ x. some_texts_at count octets.now ≡ Some (x.0, x.1.now))) }
{
    let mut texts = Names::new(alloc);
    let mut rest = octets;
    for at in 0..count {
        let _at = at;
        let Some((text, more)) = text_of(rest) else {
            return Ok(None);
        };
        texts.push(Bytes::copy_of(alloc, text)?)?;
        rest = more;
    }
    Ok(Some((texts, rest)))
}

#[tactic(auto, unfolding(crate::specs::reading::Reading::texts_at))]
fn texts_of(alloc: Global, octets: &[u8]) -> Result<Option<(Names, &[u8])>, AllocError>
    ensures { IfOk result (λ o. MatchOption o (texts_at octets.now ≡ None) (λ x. texts_at octets.now ≡ Some (x.0, x.1.now))) }
{
    let Some((count, rest)) = long_of(octets) else {
        return Ok(None);
    };
    some_texts_of(alloc, count, rest)
}

/// 0 for none.
fn some_octet(octet: u8) -> Option<u8>
    ensures { result ≡ some_if octet }
{
    if octet == 0 { None } else { Some(octet) }
}

#[tactic(auto, unfolding(crate::specs::reading::Reading::optional_at))]
fn optional_of(octets: &[u8]) -> Option<(Option<u8>, &[u8])>
    ensures { MatchOption result (optional_at octets.now ≡ None) (λ x. optional_at octets.now ≡ Some (x.0, x.1.now)) }
{
    let (octet, rest) = octets.split_first()?;
    Some((some_octet(*octet), rest))
}

#[tactic(auto, unfolding(crate::specs::reading::Reading::folder_at))]
fn folder_of(alloc: Global, octets: &[u8]) -> Result<Option<(Folder, &[u8])>, AllocError>
    ensures { IfOk result (λ o. MatchOption o (folder_at octets.now ≡ None) (λ x. folder_at octets.now ≡ Some (x.0, x.1.now))) }
{
    let Some((number, rest)) = long_of(octets) else {
        return Ok(None);
    };
    let Some((name, rest)) = text_of(rest) else {
        return Ok(None);
    };
    let Some((delimiter, rest)) = optional_of(rest) else {
        return Ok(None);
    };
    let Some((attributes, rest)) = texts_of(alloc, rest)? else {
        return Ok(None);
    };
    let Some((validity, rest)) = half_of(rest) else {
        return Ok(None);
    };
    let Some((modseq, rest)) = long_of(rest) else {
        return Ok(None);
    };
    let Some((next, rest)) = long_of(rest) else {
        return Ok(None);
    };
    let name = Bytes::copy_of(alloc, name)?;
    let folder = Folder {
        number,
        name,
        delimiter,
        attributes,
        validity,
        modseq,
        next,
    };
    Ok(Some((folder, rest)))
}

/// Where a message stands, and its flags.
#[derive(Drop)]
struct Place {
    mark: u64,
    folder: u64,
    uid: u32,
    flags: Names,
}

#[tactic(auto, unfolding(crate::specs::reading::Reading::set_at))]
fn set_of(alloc: Global, octets: &[u8]) -> Result<Option<(Place, &[u8])>, AllocError>
    ensures { IfOk result (λ o. MatchOption o (set_at octets.now ≡ None)
        (λ x. set_at octets.now ≡ Some (record { mark = x.0.mark; folder = x.0.folder; uid = x.0.uid; flags = x.0.flags }, x.1.now))) }
{
    let Some((mark, rest)) = long_of(octets) else {
        return Ok(None);
    };
    let Some((folder, rest)) = long_of(rest) else {
        return Ok(None);
    };
    let Some((uid, rest)) = half_of(rest) else {
        return Ok(None);
    };
    let Some((flags, rest)) = texts_of(alloc, rest)? else {
        return Ok(None);
    };
    let place = Place {
        mark,
        folder,
        uid,
        flags,
    };
    Ok(Some((place, rest)))
}

#[tactic(auto, unfolding(crate::specs::reading::Reading::put_at))]
fn put_of(alloc: Global, octets: &[u8]) -> Result<Option<(Item, &[u8])>, AllocError>
    ensures { IfOk result (λ o. MatchOption o (put_at octets.now ≡ None) (λ x. put_at octets.now ≡ Some (x.0, x.1.now))) }
{
    let Some((place, rest)) = set_of(alloc, octets)? else {
        return Ok(None);
    };
    let Some((date, rest)) = long_of(rest) else {
        return Ok(None);
    };
    let Some((size, rest)) = long_of(rest) else {
        return Ok(None);
    };
    let Some((header, rest)) = text_of(rest) else {
        return Ok(None);
    };
    let header = Bytes::copy_of(alloc, header)?;
    let Place {
        mark,
        folder,
        uid,
        flags,
    } = place;
    let message = Message {
        uid,
        mark,
        flags,
        date: date.cast_signed(),
        size,
        header,
    };
    Ok(Some((Item::MessagePut { folder, message }, rest)))
}

#[tactic(auto, unfolding(crate::specs::reading::Reading::folder_item_at))]
fn folder_item_of(alloc: Global, octets: &[u8]) -> Result<Option<(Item, &[u8])>, AllocError>
    ensures { IfOk result (λ o. MatchOption o (folder_item_at octets.now ≡ None) (λ x. folder_item_at octets.now ≡ Some (x.0, x.1.now))) }
{
    let Some((folder, rest)) = folder_of(alloc, octets)? else {
        return Ok(None);
    };
    Ok(Some((Item::FolderPut { folder }, rest)))
}

#[tactic(auto, unfolding(crate::specs::reading::Reading::set_item_at))]
fn set_item_of(alloc: Global, octets: &[u8]) -> Result<Option<(Item, &[u8])>, AllocError>
    ensures { IfOk result (λ o. MatchOption o (set_item_at octets.now ≡ None) (λ x. set_item_at octets.now ≡ Some (x.0, x.1.now))) }
{
    let Some((place, rest)) = set_of(alloc, octets)? else {
        return Ok(None);
    };
    let Place {
        mark,
        folder,
        uid,
        flags,
    } = place;
    let item = Item::MessageSet {
        mark,
        folder,
        uid,
        flags,
    };
    Ok(Some((item, rest)))
}

#[tactic(auto, unfolding(crate::specs::reading::Reading::message_gone_at))]
fn message_gone_of(octets: &[u8]) -> Option<(Item, &[u8])>
    ensures { MatchOption result (message_gone_at octets.now ≡ None) (λ x. message_gone_at octets.now ≡ Some (x.0, x.1.now)) }
{
    let (mark, rest) = long_of(octets)?;
    Some((Item::MessageGone { mark }, rest))
}

#[tactic(auto, unfolding(crate::specs::reading::Reading::folder_gone_at))]
fn folder_gone_of(octets: &[u8]) -> Option<(Item, &[u8])>
    ensures { MatchOption result (folder_gone_at octets.now ≡ None) (λ x. folder_gone_at octets.now ≡ Some (x.0, x.1.now)) }
{
    let (number, rest) = long_of(octets)?;
    Some((Item::FolderGone { number }, rest))
}

/// The item that begins with this octet, and the octets after it.
fn item_by_tag(alloc: Global, tag: u8, octets: &[u8]) -> Result<Option<(Item, &[u8])>, AllocError>
    ensures { IfOk result (λ o. MatchOption o (item_by tag octets.now ≡ None) (λ x. item_by tag octets.now ≡ Some (x.0, x.1.now))) }
{
    if tag == FOLDER_PUT {
        return folder_item_of(alloc, octets);
    }
    if tag == FOLDER_GONE {
        return Ok(folder_gone_of(octets));
    }
    if tag == MESSAGE_PUT {
        return put_of(alloc, octets);
    }
    if tag == MESSAGE_SET {
        return set_item_of(alloc, octets);
    }
    if tag == MESSAGE_GONE {
        return Ok(message_gone_of(octets));
    }
    Ok(None)
}

/// The item at the front, and the octets after it.
pub fn item_of(alloc: Global, octets: &[u8]) -> Result<Option<(Item, &[u8])>, AllocError>
    ensures { IfOk result (λ o. MatchOption o (item_at octets.now ≡ None) (λ x. item_at octets.now ≡ Some (x.0, x.1.now))) }
{
    let Some((tag, rest)) = octets.split_first() else {
        return Ok(None);
    };
    item_by_tag(alloc, *tag, rest)
}
