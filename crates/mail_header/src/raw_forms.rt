// The forms Raw and Text.
ghost use Rattle.std.specs.Prelude.{◌≡◌, ◌++◌, IfOk, OnOk};
ghost use Rattle.std.specs.List.{filter};
ghost use Rattle.mail_header.specs.Lines as lines;
ghost use Rattle.mail_header.specs.RawForms as forms;
ghost use Rattle.mail_header.specs.reading.HeaderLines as reading;

use header_words::{Edges, decode_words_between};
use octets::Bytes;
use std::alloc::{AllocError, Global};
use text_words::{Blank, begins_with_lf, cut};

/// The raw value without octets 0, and with U+FFFD for invalid UTF-8. Every other form is read of it.
pub fn as_raw(alloc: Global, raw: &[u8]) -> Result<Bytes, AllocError>
    ensures { IfOk result (λ b. b ≡ forms.raw_form raw.now) }
{
    let kept = without_zeros(alloc, raw)?;
    let text = String::from_utf8_lossy(alloc, kept.as_slice())?;
    Ok(Bytes::from_vec(text.into_bytes())?)
}

fn without_zeros(alloc: Global, raw: &[u8]) -> Result<Vec<u8>, AllocError>
    ensures { IfOk result (λ v. v.items ≡ filter forms.is_no_zero raw.now) }
{
    raw.iter()
        .copied()
        .filter(|octet| *octet != 0)
        .collect(alloc)
}

/// The raw value as a text: line ends are removed, white space at the front too, and encoded words are decoded.
pub fn as_text(alloc: Global, raw: &[u8]) -> Result<Bytes, AllocError>
    ensures { IfOk result (λ b. forms.IsTextForm b raw.now) }
{
    text_between(alloc, Edges::White, raw)
}

/// The text in which an address field is searched: encoded words in quoted texts are decoded too. No sender may write
/// these (RFC 2047 section 5), and many do.
pub fn as_search_text(alloc: Global, raw: &[u8]) -> Result<Bytes, AllocError>
    ensures { IfOk result (λ b. forms.IsSearchForm b raw.now) }
{
    text_between(alloc, Edges::Quotes, raw)
}

/// The raw value as a text whose encoded words stand between edges of this kind.
fn text_between(alloc: Global, edges: Edges, raw: &[u8]) -> Result<Bytes, AllocError>
    ensures { IfOk result (λ b. forms.IsTextFormBetween edges b raw.now) }
{
    let raw = as_raw(alloc, raw)?;
    let line = unfold(alloc, raw.as_slice())?;
    let (_, text) = cut(&Blank, line.as_slice());
    Ok(Bytes::from_vec(decode_words_between(alloc, edges, text)?)?)
}

/// The text without its line ends.
pub fn unfold(alloc: Global, text: &[u8]) -> Result<Vec<u8>, AllocError>
    ensures { IfOk result (λ v. v.items ≡ lines.unfolded text.now) }
{
    let mut kept = Vec::new(alloc);
    let mut rest = text;
    while let [first, more @ ..] = rest {
        push_octet(&mut kept, *first, more)?;
        rest = more;
    }
    Ok(kept)
}

/// Adds an octet, where `more` follows it, unless it is one of a line end.
fn push_octet(kept: &mut Vec<u8>, octet: u8, more: &[u8]) -> Result<(), AllocError>
    ensures { OnOk result (kept.new.items ≡ kept.old.items ++ reading.kept_header_octet octet more.now) }
{
    if is_of_line_end(octet, more) {
        return Ok(());
    }
    kept.push(octet)?;
    Ok(())
}

fn is_of_line_end(octet: u8, more: &[u8]) -> bool
    ensures { result ≡ reading.is_of_line_end octet more.now }
{
    octet == b'\n' || (octet == b'\r' && begins_with_lf(more))
}
