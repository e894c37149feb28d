// Emails whose texts have words.
ghost use Rattle.std.specs.Prelude.{◌≡◌, List, ℕ, IfOk, length, map};
ghost use Rattle.mail_maps.specs.Serve.{Email};
ghost use Rattle.query_conditions.specs.Entries.{email_at, emails_at};
ghost use Rattle.query_conditions.specs.Records as records;
ghost use Rattle.query_conditions.specs.Words.{HasWords};
ghost use Rattle.query_core.specs.reading.Joined.{joined};
ghost use Rattle.query_core.specs.reading.Kept.{Keeps};

use crate::kept::keep_if;
use octets::Names;
use query_conditions::{EmailEntry, TextField, field_text, has_words};
use std::alloc::{AllocError, Global};

/// The texts of a field, where they lie. The loop does nothing else, so that the processor reads several rows at a time.
fn field_texts<'a>(
    alloc: Global,
    rows: &[EmailEntry<'a>],
    field: TextField,
) -> Result<Vec<&'a [u8]>, AllocError>
    ensures { IfOk result (λ v. map (λ t. t.now) v.items ≡ map (λ e. records.field_text field (email_at e).immutable.envelope) rows.now) }
{
    let mut texts = Vec::with_capacity(alloc, rows.len())?;
    for row in rows {
        texts.push(field_text(&row.row.envelope, field))?;
    }
    Ok(texts)
}

/// How long the texts are together.
fn length_of(texts: &[&[u8]]) -> usize {
    let mut length: usize = 0;
    for text in texts {
        length = length.saturating_add(text.len());
    }
    length
}

/// The texts, one after another.
fn joined_texts(alloc: Global, texts: &[&[u8]]) -> Result<Vec<u8>, AllocError>
    ensures { IfOk result (λ v. v.items ≡ joined (map (λ t. t.now) texts.now)) }
{
    let mut octets = Vec::with_capacity(alloc, length_of(texts))?;
    for text in texts {
        octets.extend_from_slice(text)?;
    }
    Ok(octets)
}

/// The same texts as parts of the octets, which are theirs one after another.
fn cut_texts<'a>(
    alloc: Global,
    texts: &[&[u8]],
    octets: &'a [u8],
) -> Result<Vec<&'a [u8]>, AllocError>
    requires { octets.now ≡ joined (map (λ t. t.now) texts.now) }
    ensures { IfOk result (λ v. map (λ t. t.now) v.items ≡ map (λ t. t.now) texts.now) }
{
    let mut cut = Vec::with_capacity(alloc, texts.len())?;
    let mut left = octets;
    for text in texts {
        let (front, rest) = left.split_at(text.len());
        cut.push(front)?;
        left = rest;
    }
    Ok(cut)
}

/// Those whose text has each of the words; each Email has the text at its place.
fn with_words<'a>(
    alloc: Global,
    rows: &[EmailEntry<'a>],
    texts: &[&[u8]],
    words: &Names,
) -> Result<Vec<EmailEntry<'a>>, AllocError>
    requires { length texts.now ≡ length rows.now }
    ensures { (of : Email → List ℕ) → map (λ t. t.now) texts.now ≡ map (λ e. of (email_at e)) rows.now
        → IfOk result (λ v. Keeps (λ e. HasWords words.now (of e.1)) (emails_at rows.now) (emails_at v.items)) }
{
    let mut kept = Vec::new(alloc);
    for (at, text) in texts.iter().enumerate() {
        keep_if(&mut kept, rows[at], has_words(words, text))?;
    }
    Ok(kept)
}

/// Those in whose field each of the words stands, in their order. The texts are copied into one piece of memory first, which is freed at the
/// end, since a search in texts that lie far from one another takes much longer.
pub(crate) fn having_words<'a>(
    alloc: Global,
    rows: &[EmailEntry<'a>],
    field: TextField,
    words: &Names,
) -> Result<Vec<EmailEntry<'a>>, AllocError>
    ensures { IfOk result (λ v. Keeps (λ e. HasWords words.now (records.field_text field e.1.immutable.envelope)) (emails_at rows.now) (emails_at v.items)) }
{
    let found = field_texts(alloc, rows, field)?;
    let octets = joined_texts(alloc, &found)?;
    let texts = cut_texts(alloc, &found, octets.as_slice())?;
    with_words(alloc, rows, &texts, words)
}
