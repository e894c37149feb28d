// What is told of octets that can't be read.
ghost use Rattle.std.specs.List.{take_while};
ghost use Rattle.std.specs.Prelude.{◌≡◌, ◌≤◌, length, take, true, IfOk, OnErr};
ghost use Rattle.store_causes.specs.Beginnings as beginnings;
ghost use Rattle.store_causes.specs.reading.Following as following;

use crate::cause::{Asked, Breach, StoreCause};
use octets::Bytes;
use std::alloc::{AllocError, Global};

/// The most octets that are told.
pub const MAX_BEGINNING_OCTETS: usize = 60;

// Whether it ends no line, and begins no quoted string and no literal.
fn is_told(octet: u8) -> bool
    ensures { result ≡ beginnings.is_told octet }
{
    octet != b'\r' && octet != b'\n' && octet != b'"' && octet != b'{'
}

fn first_octets(octets: &[u8]) -> &[u8]
    ensures { result.now ≡ take MAX_BEGINNING_OCTETS octets.now }
{
    if octets.len() <= MAX_BEGINNING_OCTETS {
        octets
    } else {
        &octets[..MAX_BEGINNING_OCTETS]
    }
}

fn told_front(alloc: Global, octets: &[u8]) -> Result<Vec<u8>, AllocError>
    ensures { IfOk result (λ told. told.items ≡ take_while beginnings.is_told octets.now) }
{
    octets
        .iter()
        .copied()
        .take_while(|octet| is_told(*octet))
        .collect(alloc)
}

fn beginning_of(alloc: Global, octets: &[u8]) -> Result<Bytes, AllocError>
    ensures { IfOk result (λ told. told ≡ beginnings.beginning_of octets.now) }
{
    let told = told_front(alloc, first_octets(octets))?;
    Ok(Bytes::from_vec(told)?)
}

// Whether it begins as an untagged response does, or as a request to go on.
fn begins_response(octets: &[u8]) -> bool
    ensures { result ≡ beginnings.begins_response octets.now }
{
    octets.starts_with(b"* ") || octets.starts_with(b"+ ")
}

// Whether the word stands in the octets, from one of the first `count` of them on.
fn stands_in(word: &[u8], count: usize, octets: &[u8]) -> bool
    requires { count ≤ length octets.now }
    ensures { result ≡ beginnings.stands_in word.now count octets.now }
{
    if word.is_empty() {
        return false;
    }
    for at in 0..count {
        if octets[at..].starts_with(word) {
            return true;
        }
    }
    false
}

// Whether anything may be told of what stayed unread after this.
fn may_tell(asked: &Asked, unread: &[u8]) -> bool
    ensures { result ≡ beginnings.may_tell asked.now unread.now }
{
    match asked {
        Asked::Greeting => true,
        Asked::Login => false,
        _ => begins_response(unread),
    }
}

fn beginning_after(
    alloc: Global,
    asked: &Asked,
    password: &[u8],
    unread: &[u8],
) -> Result<Option<Bytes>, AllocError>
    ensures { IfOk result (λ told. told ≡ beginnings.beginning_after asked.now password.now unread.now) }
{
    if !may_tell(asked, unread) {
        return Ok(None);
    }
    let told = beginning_of(alloc, unread)?;
    if stands_in(password, told.as_slice().len(), unread) {
        return Ok(None);
    }
    Ok(Some(told))
}

/// What is told where there is this cause or none, and these octets stayed unread in a life to which the password was given.
pub fn beginning_by(
    alloc: Global,
    cause: &Option<StoreCause>,
    password: &[u8],
    unread: &[u8],
) -> Result<Option<Bytes>, AllocError>
    ensures told { IfOk result (λ told. told ≡ following.beginning_by password.now cause.now unread.now) }
    ensures wants { OnErr result (following.is_unreadable cause.now ≡ true) }
{
    match cause {
        Some(
            StoreCause::Unanswered {
                asked,
                breach: Breach::Unreadable { .. },
            },
        ) => beginning_after(alloc, asked, password, unread),
        _ => Ok(None),
    }
}
