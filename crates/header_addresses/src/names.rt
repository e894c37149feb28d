// Names of mailboxes and groups, and addresses as they are spelled.
ghost use Rattle.std.specs.Prelude.{◌≡◌, ◌++◌, None, Some, false, IfOk, OnOk, MatchOption};
ghost use Rattle.std.specs.Option.{option_map};
ghost use Rattle.text_words.specs.Cuts.{back};
ghost use Rattle.header_tokens.specs.Kinds.{is_gap as is_gap_token};
ghost use Rattle.mail_header.specs.WhiteEnd as white_end;
ghost use Rattle.header_addresses.specs.Names as names;
ghost use Rattle.header_addresses.specs.reading.ElementView.{mailbox_view};
ghost use Rattle.header_tokens.specs.TokenView.{tokens_view};
ghost use Rattle.header_words.specs.EncodedWords.{IsText};

use crate::address::Address;
use crate::elements::Mailbox;
use crate::mailboxes::is_phrase;
use crate::token_class::{Gap, cut_tokens};
use header_tokens::{Kind, Token, bracketed_text, is_gap};
use header_words::{as_one_line, decode_words};
use mail_header::raw_forms::unfold;
use mail_header::white_end::without_white_end;
use octets::Bytes;
use std::alloc::{AllocError, Global};
use text_words::{White, cut};

/// What stands in a quoted text or a comment, without control characters.
fn shown_inside(alloc: Global, text: &[u8]) -> Result<Vec<u8>, AllocError>
    ensures { IfOk result (λ v. v.items ≡ names.shown_inside text.now) }
{
    let inside = bracketed_text(alloc, text)?;
    as_one_line(alloc, inside.as_slice())
}

/// Adds a word, unquoted.
fn push_word(alloc: Global, text: &mut Vec<u8>, word: &Token<'_>) -> Result<(), AllocError>
    ensures { OnOk result (text.new.items ≡ text.old.items ++ names.shown_word word.now.kind word.now.text.now) }
{
    match word.kind {
        Kind::Quoted => {
            let plain = shown_inside(alloc, word.text)?;
            text.extend_from_slice(plain.as_slice())
        }
        Kind::Atom | Kind::Space | Kind::Literal | Kind::Comment | Kind::Mark => {
            text.extend_from_slice(word.text)
        }
    }
}

fn push_space(text: &mut Vec<u8>, gap: bool) -> Result<(), AllocError>
    ensures { OnOk result (text.new.items ≡ text.old.items ++ names.space gap) }
{
    if gap {
        text.push(b' ')?;
    }
    Ok(())
}

/// The words of a phrase after its first gap, unquoted, with a space for each gap between them.
fn phrase_words(alloc: Global, phrase: &[Token<'_>]) -> Result<Vec<u8>, AllocError>
    ensures { IfOk result (λ v. v.items ≡ names.phrase_from false (back is_gap_token (tokens_view phrase.now))) }
{
    let (_, words) = cut_tokens(&Gap, phrase);
    let mut text = Vec::new(alloc);
    let mut gap = false;
    for word in words {
        if is_gap(word) {
            gap = true;
        } else {
            push_space(&mut text, gap)?;
            push_word(alloc, &mut text, word)?;
            gap = false;
        }
    }
    Ok(text)
}

/// The name that a phrase is, in which encoded words are decoded.
pub(crate) fn phrase_name(alloc: Global, phrase: &[Token<'_>]) -> Result<Bytes, AllocError>
    ensures { IfOk result (λ b. IsText false (names.phrase_text (tokens_view phrase.now)) b) }
{
    let words = phrase_words(alloc, phrase)?;
    let (_, text) = cut(&White, words.as_slice());
    Ok(Bytes::from_vec(decode_words(alloc, without_white_end(text))?)?)
}

/// The first comment after the last lexeme.
fn comment_behind<'a>(tokens: &[Token<'a>]) -> Option<&'a [u8]>
    ensures { MatchOption result (names.comment_behind None (tokens_view tokens.now) ≡ None) (λ t. names.comment_behind None (tokens_view tokens.now) ≡ Some t.now) }
{
    let mut found = None;
    for token in tokens {
        found = comment_after(found, token);
    }
    found
}

/// The first comment since the last lexeme, where `found` was it before this token.
fn comment_after<'a>(found: Option<&'a [u8]>, token: &Token<'a>) -> Option<&'a [u8]>
    ensures { option_map (λ t. t.now) result ≡ names.comment_after (option_map (λ t. t.now) found.entry) token.now.kind token.now.text.now }
{
    match token.kind {
        Kind::Space => found,
        Kind::Comment => match found {
            None => Some(token.text),
            Some(first) => Some(first),
        },
        Kind::Atom | Kind::Quoted | Kind::Literal | Kind::Mark => None,
    }
}

/// The text of a comment, in which encoded words are decoded.
fn comment_text(alloc: Global, comment: &[u8]) -> Result<Vec<u8>, AllocError>
    ensures { IfOk result (λ v. IsText false (names.comment_text comment.now) v.items) }
{
    let text = shown_inside(alloc, comment)?;
    let (_, text) = cut(&White, text.as_slice());
    decode_words(alloc, without_white_end(text))
}

/// The text, unless it is empty.
fn some_text(text: Vec<u8>) -> Result<Option<Bytes>, AllocError>
    ensures { IfOk result (λ t. t ≡ white_end.some_text text.items) }
{
    if text.is_empty() {
        Ok(None)
    } else {
        Ok(Some(Bytes::from_vec(text)?))
    }
}

/// The name that a comment after an address gives.
fn comment_name(alloc: Global, tokens: &[Token<'_>]) -> Result<Option<Bytes>, AllocError>
    ensures { IfOk result (λ n. names.IsCommentName (names.comment_behind None (tokens_view tokens.now)) n) }
{
    match comment_behind(tokens) {
        None => Ok(None),
        Some(comment) => Ok(some_text(comment_text(alloc, comment)?)?),
    }
}

/// The name of a mailbox: its phrase, else the comment after its address.
fn name_of(alloc: Global, mailbox: &Mailbox<'_, '_>) -> Result<Option<Bytes>, AllocError>
    ensures { IfOk result (λ n. names.IsName (mailbox_view mailbox.now) n) }
{
    if is_phrase(mailbox.phrase) {
        Ok(Some(phrase_name(alloc, mailbox.phrase)?))
    } else {
        comment_name(alloc, mailbox.behind)
    }
}

/// The lexemes of an addr-spec as they are spelled.
fn spelling(alloc: Global, spec: &[Token<'_>]) -> Result<Vec<u8>, AllocError>
    ensures { IfOk result (λ v. v.items ≡ names.spelling (tokens_view spec.now)) }
{
    let mut text = Vec::new(alloc);
    for token in spec {
        if !is_gap(token) {
            text.extend_from_slice(token.text)?;
        }
    }
    Ok(text)
}

fn email_of(alloc: Global, spec: &[Token<'_>]) -> Result<Bytes, AllocError>
    ensures { IfOk result (λ b. b ≡ names.email_text (tokens_view spec.now)) }
{
    let text = spelling(alloc, spec)?;
    Ok(Bytes::from_vec(unfold(alloc, text.as_slice())?)?)
}

/// The name and the address of a mailbox.
pub(crate) fn address_of(alloc: Global, mailbox: &Mailbox<'_, '_>) -> Result<Address, AllocError>
    ensures { IfOk result (λ a. names.IsAddress (mailbox_view mailbox.now) a) }
{
    let name = name_of(alloc, mailbox)?;
    let email = email_of(alloc, mailbox.spec)?;
    Ok(Address { name, email })
}
