// What a folder, a message and its flags may be in a batch.
ghost use Rattle.std.specs.List.{list_all};
ghost use Rattle.std.specs.Prelude.{◌≡◌, ◌↔◌, IsTrue, IfOk};
ghost use Rattle.imap_types.specs.Octets as classes;
ghost use Rattle.told_mail.specs.Mail.{IsKept};
ghost use Rattle.mail_batches.specs.Rules.{AreFlags, IsRightFolder, IsRightMessage};
ghost use Rattle.mail_batches.specs.reading.Testing as testing;

use imap_keywords::{is_atom, is_text};
use kept_names::kept;
use octets::{Bytes, Names};
use std::alloc::{AllocError, Global};
use told_folder::telling::{MAX_MARK, are_same};
use told_mail::{Folder, Message};

/// The last number of a folder.
const MAX_FOLDER_NUMBER: u64 = 9_007_199_254_740_991;

/// The last number that 63 bits have.
const MAX_63: u64 = 9_223_372_036_854_775_807;

/// The end of UIDs.
const MAX_NEXT: u64 = 4_294_967_296;

fn are_of_atoms(octets: &[u8]) -> bool
    ensures { result ≡ list_all classes.is_atom octets.now }
{
    octets.iter().all(|octet| is_atom(u16::from(*octet)))
}

/// Whether no octet is 0, CR or LF.
fn are_of_texts(octets: &[u8]) -> bool
    ensures { result ≡ list_all classes.is_text octets.now }
{
    octets.iter().all(|octet| is_text(u16::from(*octet)))
}

fn is_atom_text(octets: &[u8]) -> bool
    ensures { result ≡ testing.is_atom_text octets.now }
{
    0 < octets.len() && are_of_atoms(octets)
}

/// A name of RFC 9051's grammar: an atom, or one after a backslash.
fn is_name(octets: &[u8]) -> bool
    ensures { result ≡ testing.is_name octets.now }
{
    match octets {
        [] => false,
        [b'\\', rest @ ..] => is_atom_text(rest),
        _ => is_atom_text(octets),
    }
}

fn are_names(names: &[Bytes]) -> bool
    ensures { result ≡ list_all testing.is_name names.now }
{
    names.iter().all(|name| is_name(name.as_slice()))
}

fn is_kept(alloc: Global, names: &Names) -> Result<bool, AllocError>
    ensures { IfOk result (λ b. IsTrue b ↔ IsKept names.now) }
{
    let kept = kept(alloc, names.as_slice(), &[])?;
    Ok(are_same(&kept, names))
}

/// Names in kept form.
pub fn are_flags(alloc: Global, names: &Names) -> Result<bool, AllocError>
    ensures { IfOk result (λ b. IsTrue b ↔ AreFlags names.now) }
{
    if !are_names(names.as_slice()) {
        return Ok(false);
    }
    is_kept(alloc, names)
}

fn is_zero(octet: Option<u8>) -> bool
    ensures { result ≡ testing.is_zero octet }
{
    match octet {
        Some(octet) => octet == 0,
        None => false,
    }
}

fn has_right_numbers(folder: &Folder) -> bool
    ensures { result ≡ testing.has_right_numbers folder.now }
{
    0 < folder.number
        && folder.number <= MAX_FOLDER_NUMBER
        && folder.modseq <= MAX_63
        && 0 < folder.next
        && folder.next <= MAX_NEXT
        && !is_zero(folder.delimiter)
}

/// Whether a batch may have the folder.
pub fn is_right_folder(alloc: Global, folder: &Folder) -> Result<bool, AllocError>
    ensures { IfOk result (λ b. IsTrue b ↔ IsRightFolder folder.now) }
{
    if !has_right_numbers(folder) {
        return Ok(false);
    }
    if !are_of_texts(folder.name.as_slice()) {
        return Ok(false);
    }
    are_flags(alloc, &folder.attributes)
}

fn has_right_places(message: &Message) -> bool
    ensures { result ≡ testing.has_right_places message.now }
{
    0 < message.mark && message.mark <= MAX_MARK && 0 < message.uid && message.size <= MAX_63
}

/// Whether a batch may have the message.
pub fn is_right_message(alloc: Global, message: &Message) -> Result<bool, AllocError>
    ensures { IfOk result (λ b. IsTrue b ↔ IsRightMessage message.now) }
{
    if !has_right_places(message) {
        return Ok(false);
    }
    are_flags(alloc, &message.flags)
}
