// What a text by itself is, or begins with (RFC 5322 section 3.4).
ghost use Rattle.std.specs.Prelude.{◌≡◌, ◌++◌, ◌∷◌, [], ℕ, List, MatchOption, IfOk};
ghost use Rattle.header_tokens.specs.declared.token.Alphabet.TheVariants as alphabet;
ghost use Rattle.header_tokens.specs.Tokens.{AreLeading};
ghost use Rattle.header_tokens.specs.TokenView.{tokens_view};
ghost use Rattle.header_addresses.specs.AddressLists as lists;
ghost use Rattle.header_addresses.specs.Mailboxes as mailboxes;
ghost use Rattle.header_addresses.specs.Parts as parts;
ghost use Rattle.header_addresses.specs.declared.address.Address.{Address as AddressValue};
ghost use Rattle.header_addresses.specs.reading.ElementView.{mailbox_view, element_view, elements_view};
ghost use Rattle.header_addresses.specs.reading.GroupBuilding as building;

use crate::address::Address;
use crate::address_lists::list_of;
use crate::elements::{Element, Mailbox};
use crate::mailboxes::is_phrase;
use crate::names::{address_of, phrase_name};
use crate::token_class::{NoColon, cut_tokens};
use header_tokens::tokens::{leading_tokens, tokens};
use header_tokens::{Alphabet, Token};
use octets::Bytes;
use std::alloc::{AllocError, Global};

fn member<'a, 'b>(element: &Element<'a, 'b>) -> Option<Mailbox<'a, 'b>>
    ensures { MatchOption result ((m : mailboxes.Mailbox) → element_view element.now ≡ lists.Member m → ⊥) (λ m. element_view element.now ≡ lists.Member (mailbox_view m)) }
{
    match element {
        Element::Empty | Element::Head(_) | Element::End => None,
        Element::Member(mailbox) => Some(*mailbox),
    }
}

/// The mailbox that is the one element.
fn member_alone<'a, 'b>(elements: &[Element<'a, 'b>]) -> Option<Mailbox<'a, 'b>>
    ensures { MatchOption result ((m : mailboxes.Mailbox) → elements_view elements.now ≡ lists.Member m ∷ [] → ⊥) (λ m. elements_view elements.now ≡ lists.Member (mailbox_view m) ∷ []) }
{
    match elements {
        [] => None,
        [only] => member(only),
        [_first, _second, ..] => None,
    }
}

/// The address that the tokens are by themselves.
fn address_in(alloc: Global, tokens: &[Token<'_>]) -> Result<Option<Address>, AllocError>
    ensures { IfOk result (λ r. building.OneIn (tokens_view tokens.now) r) }
{
    let Some(elements) = list_of(alloc, tokens)? else {
        return Ok(None);
    };
    match member_alone(elements.as_slice()) {
        None => Ok(None),
        Some(mailbox) => Ok(Some(address_of(alloc, &mailbox)?)),
    }
}

/// The address that a text is, where it is a list of one mailbox and of no group. The octets are taken as they are.
pub fn one_address(alloc: Global, text: &[u8]) -> Result<Option<Address>, AllocError>
    ensures { IfOk result (λ r. MatchOption r ((a : AddressValue) → parts.IsOneAddress a text.now → ⊥) (λ a. parts.IsOneAddress a text.now)) }
{
    match tokens(alloc, Alphabet::Mail, text)? {
        None => Ok(None),
        Some(found) => address_in(alloc, found.as_slice()),
    }
}

/// The name of the tokens, where they are a phrase.
fn name_in(alloc: Global, tokens: &[Token<'_>]) -> Result<Option<Bytes>, AllocError>
    ensures { IfOk result (λ r. building.NameIn (tokens_view tokens.now) r) }
{
    if is_phrase(tokens) {
        Ok(Some(phrase_name(alloc, tokens)?))
    } else {
        Ok(None)
    }
}

/// The name that a text spells, where it is a phrase.
pub fn name_of_phrase(alloc: Global, text: &[u8]) -> Result<Option<Bytes>, AllocError>
    ensures { IfOk result (λ r. MatchOption r ((name : List ℕ) → parts.IsPhraseName name text.now → ⊥) (λ name. parts.IsPhraseName name text.now)) }
{
    match tokens(alloc, Alphabet::Mail, text)? {
        None => Ok(None),
        Some(found) => name_in(alloc, found.as_slice()),
    }
}

/// What follows these tokens, with which the text begins.
fn behind_tokens<'a>(tokens: &[Token<'_>], text: &'a [u8]) -> &'a [u8]
    requires { (more : List ℕ) × (text.now ≡ parts.spelled_by (tokens_view tokens.now) ++ more) }
    ensures { text.now ≡ parts.spelled_by (tokens_view tokens.now) ++ result.now }
{
    let mut rest = text;
    for token in tokens {
        let (_, behind) = rest.split_at(token.text.len());
        rest = behind;
    }
    rest
}

/// What follows the phrase and the colon with which the tokens begin.
fn behind_phrase<'a>(tokens: &[Token<'_>], text: &'a [u8]) -> Option<&'a [u8]>
    requires { (tail : List ℕ) × AreLeading alphabet.Mail (tokens_view tokens.now) tail text.now }
    ensures { MatchOption result ((rest : List ℕ) → parts.HasHead rest text.now → ⊥) (λ r. parts.HasHead r.now text.now) }
{
    let (phrase, more) = cut_tokens(&NoColon, tokens);
    if more.is_empty() {
        return None;
    }
    if !is_phrase(phrase) {
        return None;
    }
    let (head, _) = tokens.split_at(phrase.len() + 1);
    Some(behind_tokens(head, text))
}

/// What follows a phrase and `:` at the front: a group's beginning.
pub fn behind_head<'a>(alloc: Global, text: &'a [u8]) -> Result<Option<&'a [u8]>, AllocError>
    ensures { IfOk result (λ r. MatchOption r ((rest : List ℕ) → parts.HasHead rest text.now → ⊥) (λ r. parts.HasHead r.now text.now)) }
{
    let (found, _) = leading_tokens(alloc, Alphabet::Mail, text)?;
    Ok(behind_phrase(found.as_slice(), text))
}
