// Encoded words that the grammar of addresses would tear.
ghost use Rattle.std.specs.Prelude.{◌≡◌, ◌<◌, ℕ, true, length, drop, not, Bool, IfOk, MatchBool};
ghost use Rattle.header_tokens.specs.reading.ClosingCounts.{TellClosings};
ghost use Rattle.loose_addresses.specs.Torn as torn;
ghost use Rattle.loose_addresses.specs.reading.TornSteps as reading;

use crate::lumps::lump_at;
use crate::word_shape::word_at;
use header_tokens::closings::closings;
use std::alloc::{AllocError, Global};
use text_words::{Class, are_all};

/// All octets but the specials that no encoded word of a phrase has.
struct NoSpecial;

impl Class<u8> for NoSpecial {
    ghost test = { reading.is_no_special };

    fn has(&self, item: &u8) -> bool {
        !(*item == b'"'
            || *item == b'('
            || *item == b')'
            || *item == b','
            || *item == b':'
            || *item == b';'
            || *item == b'<'
            || *item == b'>'
            || *item == b'@'
            || *item == b'['
            || *item == b']')
    }
}

/// Whether an encoded word at the front has a special.
fn begins_torn(text: &[u8]) -> bool
    ensures { MatchBool result (reading.BeginsTorn text.now) (reading.BeginsTorn text.now → ⊥) }
{
    match word_at(text) {
        None => false,
        Some((word, _)) => !are_all(&NoSpecial, word),
    }
}

/// How many octets the lump or the separator at that place has.
fn unit_len(text: &[u8], closed: &[bool], at: usize) -> usize
    requires tell { TellClosings closed.now text.now }
    requires within { at < length text.now }
    ensures { reading.HasUnit result (drop at text.now) }
{
    match lump_at(text, closed, at) {
        None => 1,
        Some(len) => len,
    }
}

fn has_torn(text: &[u8], closed: &[bool]) -> bool
    requires { TellClosings closed.now text.now }
    ensures { MatchBool result (torn.IsTorn text.now) (torn.IsUntorn text.now) }
{
    let mut at = 0;
    while at < text.len() {
        let (_, rest) = text.split_at(at);
        if begins_torn(rest) {
            return true;
        }
        at += unit_len(text, closed, at);
    }
    false
}

/// Whether the grammar would tear an encoded word of the text.
pub(crate) fn is_torn(alloc: Global, text: &[u8]) -> Result<bool, AllocError>
    ensures { IfOk result (λ b. MatchBool b (torn.IsTorn text.now) (torn.IsUntorn text.now)) }
{
    let closed = closings(alloc, text)?;
    Ok(has_torn(text, closed.as_slice()))
}
