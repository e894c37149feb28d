// Names of mailboxes (RFC 5322 section 3.4).
ghost use Rattle.std.specs.Prelude.{◌≡◌, ◌++◌, map, IfOk, OnOk};
ghost use Rattle.message_lines.specs.Folding.{Lays, laid, line_after, plain_piece};
ghost use Rattle.message_lines.specs.Names as texts;

use crate::folding::{Line, push_piece};
use crate::outline::Outline;
use crate::words::push_words;
use std::alloc::{AllocError, Global};
use text_words::{Class, cut, is_alpha, is_digit};

/// How many octets a name may have whose words are written as they are.
const MAX_PLAIN_OCTETS: usize = 997;

/// All but the space.
struct NoSpace;

impl Class<u8> for NoSpace {
    ghost use Rattle.message_lines.specs.Names.{is_no_space};

    ghost test = { is_no_space };

    fn has(&self, item: &u8) -> bool {
        *item != b' '
    }
}

fn is_word_octet(octet: u8) -> bool
    ensures { result ≡ texts.is_word_octet octet }
{
    is_alpha(octet) || is_digit(octet)
}

/// Whether the name is one or more words of letters and digits with one space between two.
fn are_plain_words(name: &[u8]) -> bool
    ensures { result ≡ texts.are_plain_words name.now }
{
    let mut behind_word = false;
    for octet in name {
        if is_word_octet(*octet) {
            behind_word = true;
        } else if *octet == b' ' && behind_word {
            behind_word = false;
        } else {
            return false;
        }
    }
    behind_word
}

/// Whether it is so, and each of its words fits in a line.
fn is_plain_phrase(name: &[u8]) -> bool
    ensures { result ≡ texts.is_plain_phrase name.now }
{
    are_plain_words(name) && name.len() <= MAX_PLAIN_OCTETS
}

/// Adds what stands between the spaces of a name.
fn push_plain_words(text: &mut Outline, line: Line, name: &[u8]) -> Result<Line, AllocError>
    ensures { IfOk result (λ after. (text.new ≡ text.old ++ laid line (map plain_piece (texts.words_of name.now))) × (after ≡ line_after line (map plain_piece (texts.words_of name.now)))) }
{
    let (word, mut rest) = cut(&NoSpace, name);
    let mut after = push_piece(text, line, word, false)?;
    while let [_, behind @ ..] = rest {
        let (word, more) = cut(&NoSpace, behind);
        after = push_piece(text, after, word, false)?;
        rest = more;
    }
    Ok(after)
}

/// Adds a name, by its words or as encoded words.
pub fn push_name(
    alloc: Global,
    text: &mut Outline,
    line: Line,
    name: &str,
) -> Result<Line, AllocError>
    ensures { IfOk result (Lays (texts.IsNameText line name.now) line text.old text.new) }
{
    if is_plain_phrase(name.as_bytes()) {
        push_plain_words(text, line, name.as_bytes())
    } else {
        push_words(alloc, text, line, name)
    }
}
