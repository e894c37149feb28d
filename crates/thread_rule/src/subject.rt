// The parts of a subject, read at its front and at its end (RFC 5256 section 5).
ghost use Rattle.std.specs.Prelude.{◌≡◌, ◌<◌, ℕ, length, IfSome, MatchBool, MatchOption};
ghost use Rattle.text_words.specs.Octets.{SameText};
ghost use Rattle.thread_rule.specs.Subject as subject;
ghost use Rattle.thread_rule.specs.BaseSubject.{Drops, DropsEnd, DropsBlob, DropsBlobBeforeText, Unwraps, Lacks};
ghost use Rattle.thread_rule.specs.reading.Stripping.{PassesBlob};

use text_words::{Alpha, Blank, Class, behind, cut, is_blank, same_text};

/// The octets inside a blob.
struct BlobChar;

impl Class<u8> for BlobChar {
    ghost test = { subject.is_blob_char };

    fn has(&self, item: &u8) -> bool {
        *item != 0 && *item != b'[' && *item != b']'
    }
}

/// What stands after the word, where the text begins with it in either case.
fn behind_word<'a>(word: &[u8], text: &'a [u8]) -> Option<&'a [u8]>
    ensures { MatchOption result
        (Lacks (Drops (λ p. SameText p word.now)) text.now)
        (λ r. Drops (λ p. SameText p word.now) text.now r.now) }
{
    if text.len() < word.len() {
        return None;
    }
    let (front, rest) = text.split_at(word.len());
    if same_text(front, word) {
        Some(rest)
    } else {
        None
    }
}

/// What stands before the word, where the text ends with it in either case.
fn before_word<'a>(word: &[u8], text: &'a [u8]) -> Option<&'a [u8]>
    ensures { MatchOption result
        (Lacks (DropsEnd (λ p. SameText p word.now)) text.now)
        (λ r. DropsEnd (λ p. SameText p word.now) text.now r.now) }
{
    if text.len() < word.len() {
        return None;
    }
    let (rest, back) = text.split_at(text.len() - word.len());
    if same_text(back, word) {
        Some(rest)
    } else {
        None
    }
}

/// What stands after white space of one octet at the front.
fn behind_blank(text: &[u8]) -> Option<&[u8]>
    ensures { MatchOption result
        (Lacks (Drops subject.IsWsp) text.now)
        (λ r. Drops subject.IsWsp text.now r.now) }
{
    let (first, rest) = text.split_first()?;
    if is_blank(*first) { Some(rest) } else { None }
}

/// What stands before white space of one octet at the end.
fn before_blank(text: &[u8]) -> Option<&[u8]>
    ensures { MatchOption result
        (Lacks (DropsEnd subject.IsWsp) text.now)
        (λ r. DropsEnd subject.IsWsp text.now r.now) }
{
    let (last, rest) = text.split_last()?;
    if is_blank(*last) { Some(rest) } else { None }
}

/// What stands before a trailer at the end.
pub fn before_trailer(text: &[u8]) -> Option<&[u8]>
    ensures trailer { MatchOption result
        (Lacks (DropsEnd subject.IsTrailer) text.now)
        (λ r. DropsEnd subject.IsTrailer text.now r.now) }
    ensures shorter { IfSome result (λ r. length r.now < length text.now) }
{
    match before_blank(text) {
        Some(rest) => Some(rest),
        None => before_word(b"(fwd)", text),
    }
}

/// What stands after a blob at the front and all white space that follows it.
fn behind_blob(text: &[u8]) -> Option<&[u8]>
    ensures { MatchOption result (Lacks DropsBlob text.now) (λ r. DropsBlob text.now r.now) }
{
    let inside = behind(b'[', text)?;
    let (_, rest) = cut(&BlobChar, inside);
    let gap = behind(b']', rest)?;
    let (_, rest) = cut(&Blank, gap);
    Some(rest)
}

/// What stands after a blob at the front, or the text where it begins with none.
fn past_blob(text: &[u8]) -> &[u8]
    ensures { PassesBlob text.now result.now }
{
    match behind_blob(text) {
        Some(rest) => rest,
        None => text,
    }
}

/// What stands after a blob at the front that isn't the whole text.
pub fn behind_blob_before_text(text: &[u8]) -> Option<&[u8]>
    ensures blob { MatchOption result
        (Lacks DropsBlobBeforeText text.now)
        (λ r. DropsBlobBeforeText text.now r.now) }
    ensures shorter { IfSome result (λ r. length r.now < length text.now) }
{
    let rest = behind_blob(text)?;
    if rest.is_empty() { None } else { Some(rest) }
}

fn is_reply_word(word: &[u8]) -> bool
    ensures { MatchBool result (subject.IsReplyWord word.now) (¬ subject.IsReplyWord word.now) }
{
    if same_text(word, b"re") {
        return true;
    }
    if same_text(word, b"fw") {
        return true;
    }
    same_text(word, b"fwd")
}

/// What stands after a reply mark at the front.
fn behind_mark(text: &[u8]) -> Option<&[u8]>
    ensures { MatchOption result
        (Lacks (Drops subject.IsReplyMark) text.now)
        (λ r. Drops subject.IsReplyMark text.now r.now) }
{
    let (word, rest) = cut(&Alpha, text);
    if !is_reply_word(word) {
        return None;
    }
    let (_, rest) = cut(&Blank, rest);
    behind(b':', past_blob(rest))
}

/// What stands after blobs at the front and a reply mark after them.
fn behind_marked(text: &[u8]) -> Option<&[u8]>
    ensures { MatchOption result
        (Lacks (Drops subject.IsMarkBehindBlobs) text.now)
        (λ r. Drops subject.IsMarkBehindBlobs text.now r.now) }
{
    let mut rest = text;
    while let Some(behind) = behind_blob(rest) {
        rest = behind;
    }
    behind_mark(rest)
}

/// What stands after a leader at the front.
pub fn behind_leader(text: &[u8]) -> Option<&[u8]>
    ensures leader { MatchOption result
        (Lacks (Drops subject.IsLeader) text.now)
        (λ r. Drops subject.IsLeader text.now r.now) }
    ensures shorter { IfSome result (λ r. length r.now < length text.now) }
{
    match behind_blank(text) {
        Some(rest) => Some(rest),
        None => behind_marked(text),
    }
}

/// What a forwarded subject holds, without its header and trailer.
pub fn unwrapped(text: &[u8]) -> Option<&[u8]>
    ensures inner { MatchOption result (Lacks Unwraps text.now) (λ r. Unwraps text.now r.now) }
    ensures shorter { IfSome result (λ r. length r.now < length text.now) }
{
    let inner = behind_word(b"[fwd:", text)?;
    before_word(b"]", inner)
}
