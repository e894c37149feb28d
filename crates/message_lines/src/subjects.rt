// Subjects (RFC 5322 section 3.6.5).
ghost use Rattle.std.specs.Prelude.{◌≡◌, string_bytes, IfOk};
ghost use Rattle.std.specs.Str.{IsUtf8};
ghost use Rattle.message_lines.specs.Folding.{Lays};
ghost use Rattle.message_lines.specs.Subjects as subjects;

use crate::folding::{Line, push_piece};
use crate::outline::Outline;
use crate::words::push_words;
use header_words::words::is_control;
use std::alloc::{AllocError, Global};
use std::str;
use text_words::{Class, are_all};

/// The most octets of a subject that stands as it is: with the name of its field it fills a line.
const MAX_PLAIN_OCTETS: usize = 989;

/// Printed octets of ASCII, and the space.
struct Printed;

impl Class<u8> for Printed {
    ghost use Rattle.text_words.specs.Octets.{is_between};

    ghost test = { is_between 32 126 };

    fn has(&self, item: &u8) -> bool {
        b' ' <= *item && *item <= b'~'
    }
}

/// The subject with a space for each control character.
fn shown_octets(alloc: Global, subject: &str) -> Result<Vec<u8>, AllocError>
    ensures { IfOk result (λ v. v.items ≡ subjects.shown_subject subject.now) }
{
    let mut shown = Vec::with_capacity(alloc, subject.len())?;
    for octet in subject.as_bytes() {
        shown.push(if is_control(*octet) { b' ' } else { *octet })?;
    }
    Ok(shown)
}

/// Whether "=?", which begins an encoded word, stands in the text.
pub fn has_word_mark(text: &[u8]) -> bool
    ensures { result ≡ subjects.has_word_mark text.now }
{
    let mut rest = text;
    while let [first, behind @ ..] = rest {
        if *first == b'=' && begins_with(b'?', behind) {
            return true;
        }
        rest = behind;
    }
    false
}

fn begins_with(octet: u8, text: &[u8]) -> bool
    ensures { result ≡ subjects.begins_with octet text.now }
{
    match text {
        [] => false,
        [first, ..] => *first == octet,
    }
}

fn is_plain(subject: &[u8]) -> bool
    ensures { result ≡ subjects.is_plain_subject subject.now }
{
    are_all(&Printed, subject)
        && !begins_with(b' ', subject)
        && !has_word_mark(subject)
        && subject.len() <= MAX_PLAIN_OCTETS
}

/// Adds a subject, as it stands or as encoded words.
pub fn push_subject(
    alloc: Global,
    text: &mut Outline,
    line: Line,
    subject: &str,
) -> Result<Line, AllocError>
    ensures { IfOk result (Lays (subjects.IsSubject line subject.now) line text.old text.new) }
{
    let shown = shown_octets(alloc, subject)?;
    if is_plain(shown.as_slice()) {
        return push_piece(text, line, shown.as_slice(), false);
    }
    let Ok(shown) = str::from_utf8(shown.as_slice()) else {
        unreachable!();
    };
    push_words(alloc, text, line, shown)
}
