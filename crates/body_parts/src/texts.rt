// The texts of parts (RFC 8621 section 4.1.4, EmailBodyValue).
ghost use Rattle.std.specs.Prelude.{◌≡◌, ◌++◌, IfOk, OnOk};
ghost use Rattle.mime_tree.specs.Parts.{IsWithin};
ghost use Rattle.body_parts.specs.Texts as texts;
ghost use Rattle.body_parts.specs.reading.Decoded.{HasDecoded};

use header_words::decode_charset;
use memchr::memchr;
use mime_tree::{Part, part_bytes};
use std::alloc::{AllocError, Global};
use text_words::begins_with_lf;

/// A text in UTF-8, and whether what spelled it has a problem.
#[derive(Drop)]
pub(crate) struct PartText {
    pub text: Vec<u8>,
    pub problem: bool,
}

/// Adds an octet, where `more` follows it, unless it is the CR of a CR LF.
fn push_octet(kept: &mut Vec<u8>, octet: u8, more: &[u8]) -> Result<(), AllocError>
    ensures { OnOk result (kept.new.items ≡ kept.old.items ++ texts.kept_octet octet more.now) }
{
    if octet == b'\r' && begins_with_lf(more) {
        return Ok(());
    }
    kept.push(octet)?;
    Ok(())
}

/// The text with CR LF as LF.
#[tactic(auto, unfolding(crate::specs::Texts::with_lf))]
fn with_lf(alloc: Global, text: &[u8]) -> Result<Vec<u8>, AllocError>
    ensures { IfOk result (λ v. v.items ≡ texts.with_lf text.now) }
{
    let mut kept = Vec::with_capacity(alloc, text.len())?;
    let mut rest = text;
    'lines: while let Some(at) = memchr(b'\r', rest) {
        let (front, more) = rest.split_at(at);
        let (_, after) = more.split_at(1);
        kept.extend_from_slice(front)?;
        push_octet(&mut kept, b'\r', after)?;
        rest = after;
    }
    kept.extend_from_slice(rest)?;
    Ok(kept)
}

/// A part's charset; a text has one.
#[tactic(auto, unfolding(mime_tree::specs::Heads::us_ascii))]
fn charset_of(part: &Part) -> &[u8]
    ensures { result.now ≡ texts.part_charset part.now }
{
    match &part.charset {
        None => b"us-ascii",
        Some(charset) => charset.as_slice(),
    }
}

/// Whether an apostrophe stands at each end of a name.
fn is_in_apostrophes(name: &[u8]) -> bool
    ensures { result ≡ texts.is_in_apostrophes name.now }
{
    name.len() >= 2 && name[0] == b'\'' && name[name.len() - 1] == b'\''
}

/// The name without one pair of apostrophes round it.
fn without_apostrophes(name: &[u8]) -> &[u8]
    ensures { result.now ≡ texts.without_apostrophes name.now }
{
    if is_in_apostrophes(name) {
        &name[1..name.len() - 1]
    } else {
        name
    }
}

/// The text of a part of these octets, with the ends of its lines as they stand.
fn decoded(alloc: Global, bytes: &[u8], part: &Part) -> Result<PartText, AllocError>
    requires { IsWithin part.now bytes.now }
    ensures { IfOk result (λ t. HasDecoded part.now bytes.now t.text.items t.problem) }
{
    let (octets, misspelled) = part_bytes(alloc, bytes, part)?;
    let charset = without_apostrophes(charset_of(part));
    let (text, undecoded) = decode_charset(alloc, charset, octets.as_slice())?;
    Ok(PartText {
        text,
        problem: misspelled || undecoded,
    })
}

/// The text of a part of these octets.
pub(crate) fn text_of(alloc: Global, bytes: &[u8], part: &Part) -> Result<PartText, AllocError>
    requires { IsWithin part.now bytes.now }
    ensures { IfOk result (λ t. texts.HasText part.now bytes.now t.text.items t.problem) }
{
    let spelled = decoded(alloc, bytes, part)?;
    let text = with_lf(alloc, spelled.text.as_slice())?;
    Ok(PartText {
        text,
        problem: spelled.problem,
    })
}
