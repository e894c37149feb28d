// What an element reads as.
ghost use Rattle.std.specs.Prelude.{◌≡◌, ℕ, false, List, IfOk, MatchOption};
ghost use Rattle.header_words.specs.EncodedWords.{IsTextBetween};
ghost use Rattle.header_words.specs.OneLine.{one_line};
ghost use Rattle.header_words.specs.declared.encoded_word.Edges.TheVariants as edges;
ghost use Rattle.mail_header.specs.WhiteEnd.{some_text};
ghost use Rattle.header_addresses.specs.Parts.{HasHead};
ghost use Rattle.header_addresses.specs.Parts.{IsPhraseName, IsOneAddress};
ghost use Rattle.loose_addresses.specs.LooseLists as lists;
ghost use Rattle.loose_addresses.specs.Torn.{IsTorn, IsUntorn};

use crate::bare::{bare_text, trimmed};
use crate::lumps::ends_lumps;
use crate::outside::address_angle;
use crate::torn::is_torn;
use header_addresses::{Address, behind_head, name_of_phrase, one_address};
use header_tokens::closings::closings;
use header_words::{Edges, as_one_line, decode_words_between};
use octets::Bytes;
use std::alloc::{AllocError, Global};

/// The name that a text is as it stands.
fn name_as_it_stands(alloc: Global, before: &[u8]) -> Result<Option<Bytes>, AllocError>
    ensures { IfOk result (λ n. (text : List ℕ) × IsTextBetween edges.Quotes false (one_line before.now) text × (n ≡ some_text (lists.trimmed text))) }
{
    let line = as_one_line(alloc, before)?;
    let text = decode_words_between(alloc, Edges::Quotes, line.as_slice())?;
    let name = trimmed(text.as_slice());
    if name.is_empty() {
        Ok(None)
    } else {
        Ok(Some(Bytes::copy_of(alloc, name)?))
    }
}

/// The name that a phrase spells which tears no encoded word.
fn whole_phrase(alloc: Global, before: &[u8]) -> Result<Option<Bytes>, AllocError>
    ensures { IfOk result (λ r. MatchOption r
        ((name : List ℕ) → IsPhraseName name before.now → IsTorn before.now)
        (λ name. IsPhraseName name before.now × IsUntorn before.now)) }
{
    if is_torn(alloc, before)? {
        return Ok(None);
    }
    name_of_phrase(alloc, before)
}

/// The name that stands before angle brackets.
fn name_before(alloc: Global, before: &[u8]) -> Result<Option<Bytes>, AllocError>
    ensures { IfOk result (λ n. lists.IsNameBefore before.now n) }
{
    match whole_phrase(alloc, before)? {
        Some(name) => Ok(Some(name)),
        None => name_as_it_stands(alloc, before),
    }
}

/// The text in angle brackets.
fn in_angles(alloc: Global, text: &[u8]) -> Result<Vec<u8>, AllocError>
    ensures { IfOk result (λ v. v.items ≡ lists.in_angles text.now) }
{
    let mut whole = Vec::new(alloc);
    whole.push(b'<')?;
    whole.extend_from_slice(text)?;
    whole.push(b'>')?;
    Ok(whole)
}

/// The text as one line without white space at its ends.
fn as_written(alloc: Global, text: &[u8]) -> Result<Bytes, AllocError>
    ensures { IfOk result (λ b. b ≡ lists.trimmed (one_line text.now)) }
{
    let line = as_one_line(alloc, text)?;
    Bytes::copy_of(alloc, trimmed(line.as_slice()))
}

/// The email that a text in angle brackets is.
fn email_in(alloc: Global, text: &[u8]) -> Result<Bytes, AllocError>
    ensures { IfOk result (λ b. lists.IsEmailIn text.now b) }
{
    let whole = in_angles(alloc, text)?;
    match one_address(alloc, whole.as_slice())? {
        Some(address) => Ok(address.email),
        None => as_written(alloc, text),
    }
}

/// The address in angle brackets, with the name that stands before them.
fn in_angle(alloc: Global, before: &[u8], text: &[u8]) -> Result<Address, AllocError>
    ensures { IfOk result (λ a. lists.IsNameBefore before.now a.name × lists.IsEmailIn text.now a.email) }
{
    let name = name_before(alloc, before)?;
    let email = email_in(alloc, text)?;
    Ok(Address { name, email })
}

/// The address without angle brackets that the text is.
fn bare_address(alloc: Global, text: &[u8]) -> Result<Option<Address>, AllocError>
    ensures { IfOk result (λ r. lists.NotStrict text.now → lists.NoAddressAngle text.now → lists.ReadsAs text.now r) }
{
    match bare_text(text) {
        None => Ok(None),
        Some(email) => Ok(Some(Address {
            name: None,
            email: Bytes::copy_of(alloc, email)?,
        })),
    }
}

/// What a text that is no address by the grammar reads as.
fn read_loosely(alloc: Global, text: &[u8]) -> Result<Option<Address>, AllocError>
    ensures { IfOk result (λ r. lists.NotStrict text.now → lists.ReadsAs text.now r) }
{
    match address_angle(alloc, text)? {
        None => bare_address(alloc, text),
        Some((before, inner)) => Ok(Some(in_angle(alloc, before, inner)?)),
    }
}

/// The address that the text is by the grammar, where this tears no encoded word.
fn strict_address(alloc: Global, text: &[u8]) -> Result<Option<Address>, AllocError>
    ensures { IfOk result (λ r. MatchOption r (lists.NotStrict text.now) (λ a. IsOneAddress a text.now × IsUntorn text.now)) }
{
    if is_torn(alloc, text)? {
        return Ok(None);
    }
    one_address(alloc, text)
}

fn read_behind(alloc: Global, text: &[u8]) -> Result<Option<Address>, AllocError>
    ensures { IfOk result (λ r. lists.ReadsAs text.now r) }
{
    match strict_address(alloc, text)? {
        Some(address) => Ok(Some(address)),
        None => read_loosely(alloc, text),
    }
}

/// What follows a phrase and `:` at the front, where they are whole lumps.
fn behind_whole<'a>(
    alloc: Global,
    element: &[u8],
    rest: &'a [u8],
) -> Result<Option<&'a [u8]>, AllocError>
    requires { HasHead rest.now element.now }
    ensures { IfOk result (λ r. MatchOption r
        (lists.BeginsGroup rest.now element.now → ⊥)
        (λ r. lists.BeginsGroup r.now element.now)) }
{
    let closed = closings(alloc, element)?;
    if ends_lumps(element, closed.as_slice(), element.len() - rest.len()) {
        return Ok(Some(rest));
    }
    Ok(None)
}

/// What follows a group's beginning.
fn behind_group(alloc: Global, element: &[u8]) -> Result<Option<&[u8]>, AllocError>
    ensures { IfOk result (λ r. MatchOption r
        ((rest : List ℕ) → lists.BeginsGroup rest element.now → ⊥)
        (λ r. lists.BeginsGroup r.now element.now)) }
{
    match behind_head(alloc, element)? {
        None => Ok(None),
        Some(rest) => behind_whole(alloc, element, rest),
    }
}

/// The address that an element reads as, where it reads.
pub(crate) fn read_element(alloc: Global, element: &[u8]) -> Result<Option<Address>, AllocError>
    ensures { IfOk result (λ r. lists.IsElementRead element.now r) }
{
    match behind_group(alloc, element)? {
        None => read_behind(alloc, element),
        Some(rest) => read_behind(alloc, rest),
    }
}
