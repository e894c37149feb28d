// The base subject of a text (RFC 5256 section 2.1).
ghost use Rattle.std.specs.Prelude.{◌≡◌, ◌≤◌, ◌++◌, ◌↔◌, ℕ, List, length, IfOk, OnOk};
ghost use Rattle.thread_rule.specs.Subject.{IsLeader, IsTrailer};
ghost use Rattle.thread_rule.specs.BaseSubject as base;
ghost use Rattle.thread_rule.specs.reading.Stripping.{IsStripped};

use crate::subject::{before_trailer, behind_blob_before_text, behind_leader, unwrapped};
use octets::Bytes;
use std::alloc::{AllocError, Global};
use text_words::is_blank;

/// The base subject of a Subject in its text form: without reply marks, blobs, trailers and the wrapping of forwarded
/// subjects, by the steps of RFC 5256 section 2.1. Each text has exactly one.
pub fn base_subject(alloc: Global, text: &[u8]) -> Result<Bytes, AllocError>
    ensures { IfOk result (λ b. (t : List ℕ) → base.IsBaseOf text.now t ↔ (t ≡ b)) }
{
    let spaced = with_single_spaces(alloc, text)?;
    Bytes::copy_of(alloc, base_of(spaced.as_slice()))
}

/// The text with its tabs as spaces, and runs of spaces as one space.
fn with_single_spaces(alloc: Global, text: &[u8]) -> Result<Vec<u8>, AllocError>
    ensures { IfOk result (λ v. v.items ≡ base.spaced text.now) }
{
    let mut spaced = Vec::new(alloc);
    let mut rest = text;
    while let [first, more @ ..] = rest {
        push_spaced(&mut spaced, *first, more)?;
        rest = more;
    }
    Ok(spaced)
}

/// Adds an octet, where `more` follows it. Of a run of white space the last is added, as a space.
fn push_spaced(spaced: &mut Vec<u8>, octet: u8, more: &[u8]) -> Result<(), AllocError>
    ensures { OnOk result (spaced.new.items ≡ spaced.old.items ++ base.spaced_octet octet more.now) }
{
    if !is_blank(octet) {
        spaced.push(octet)?;
        return Ok(());
    }
    if !begins_blank(more) {
        spaced.push(b' ')?;
    }
    Ok(())
}

fn begins_blank(text: &[u8]) -> bool
    ensures { result ≡ base.begins_blank text.now }
{
    match text {
        [] => false,
        [first, ..] => is_blank(*first),
    }
}

/// The normal form of a text under the steps that remove something (2 to 6). It takes no memory.
pub fn base_of(text: &[u8]) -> &[u8]
    ensures { (t : List ℕ) → base.IsNormalFormOf text.now t ↔ (t ≡ result.now) }
{
    let mut rest = stripped(text);
    while let Some(inner) = unwrapped(rest) {
        rest = stripped(inner);
    }
    rest
}

/// The text after steps 2 to 5.
fn stripped(text: &[u8]) -> &[u8]
    ensures { IsStripped text.now result.now }
{
    without_blobs(without_leaders(without_trailers(text)))
}

fn without_trailers(text: &[u8]) -> &[u8]
    ensures reached { base.Reaches text.now result.now }
    ensures trailer { base.Lacks (base.DropsEnd IsTrailer) result.now }
    ensures shorter { length result.now ≤ length text.now }
{
    let mut rest = text;
    while let Some(more) = before_trailer(rest) {
        rest = more;
    }
    rest
}

fn without_leaders(text: &[u8]) -> &[u8]
    requires { base.Lacks (base.DropsEnd IsTrailer) text.now }
    ensures reached { base.Reaches text.now result.now }
    ensures trailer { base.Lacks (base.DropsEnd IsTrailer) result.now }
    ensures leader { base.Lacks (base.Drops IsLeader) result.now }
    ensures shorter { length result.now ≤ length text.now }
{
    let mut rest = text;
    while let Some(more) = behind_leader(rest) {
        rest = more;
    }
    rest
}

fn without_blobs(text: &[u8]) -> &[u8]
    requires trailer { base.Lacks (base.DropsEnd IsTrailer) text.now }
    requires leader { base.Lacks (base.Drops IsLeader) text.now }
    ensures { IsStripped text.now result.now }
{
    let mut rest = text;
    while let Some(more) = behind_blob_before_text(rest) {
        rest = more;
    }
    rest
}
