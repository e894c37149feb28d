// Which brackets of a value are closed: parentheses, quotation marks, square brackets and angle brackets. They are found from
// the end to the front in one pass, so that a value with many that nothing closes costs no more than others.
ghost use Rattle.std.specs.Prelude.{◌≡◌, ◌<◌, ◌+◌, ◌-◌, ◌^◌, false, true, IfOk, List, ℕ, [], ◌∷◌, ◌++◌, ◌≢◌, MatchOption};
ghost use Rattle.header_tokens.specs.Closings as closing;
ghost use Rattle.header_tokens.specs.reading.ClosingCounts as counts;
ghost use Rattle.header_tokens.specs.reading.ClosingSteps as reading;

use std::alloc::{AllocError, Global};
use text_words::{Class, behind, cut};

/// All octets but `>`.
struct NoGreater;

impl Class<u8> for NoGreater {
    ghost test = { closing.is_no_greater_octet };

    fn has(&self, item: &u8) -> bool {
        *item != b'>'
    }
}

/// What stands from a `<` at the front up to the next `>`, with them, and what follows it.
pub fn angle_at(text: &[u8]) -> Option<(&[u8], &[u8])>
    ensures { MatchOption result ((x y : List ℕ) → closing.IsAngle x → text.now ≢ x ++ y) (λ r. closing.IsAngle r.0.now × (text.now ≡ r.0.now ++ r.1.now)) }
{
    let Some(rest) = behind(b'<', text) else {
        return None;
    };
    let (inner, more) = cut(&NoGreater, rest);
    match behind(b'>', more) {
        None => None,
        Some(_) => Some(text.split_at(inner.len() + 2)),
    }
}

/// Whether an octet closes what a text begins in.
#[derive(Clone, Copy)]
struct Closer {
    /// Where no backslash stands before the text.
    pub plain: bool,
    /// Where one does.
    pub escaped: bool,
}

/// Nothing is closed in an empty text.
#[tactic(auto, unfolding(crate::specs::reading::ClosingCounts::has_closer))]
fn no_closer() -> Closer
    ensures { (octet : ℕ) → reading.IsCloser octet result [] }
{
    Closer {
        plain: false,
        escaped: false,
    }
}

/// The same, where the octet stands before the text.
#[tactic(auto, unfolding(crate::specs::reading::ClosingCounts::has_closer))]
fn closer_before(found: Closer, closer: u8, octet: u8) -> Closer
    ensures { (t : List ℕ) → reading.IsCloser closer found t → reading.IsCloser closer result (octet ∷ t) }
{
    Closer {
        plain: if octet == b'\\' {
            found.escaped
        } else {
            octet == closer || found.plain
        },
        escaped: found.plain,
    }
}

/// What ends in a text: asked from the octet before it, which is escaped itself or not.
#[derive(Clone, Copy)]
struct Ends {
    /// How many closing parentheses have no partner in the text.
    pub comments: usize,
    /// As many, where a backslash stands before the text.
    pub comments_escaped: usize,
    /// Whether a quotation mark closes a quoted text.
    pub quote: Closer,
    /// Whether a square bracket closes a domain literal.
    pub literal: Closer,
    /// Whether the text has a `>`.
    pub greater: bool,
}

/// Nothing ends in an empty text.
#[tactic(auto, unfolding(crate::specs::reading::ClosingCounts::unmatched, crate::specs::reading::ClosingCounts::has_greater))]
fn no_ends() -> Ends
    ensures { reading.AreEnds result [] }
{
    Ends {
        comments: 0,
        comments_escaped: 0,
        quote: no_closer(),
        literal: no_closer(),
        greater: false,
    }
}

/// The closing parentheses without a partner, where the octet stands before the text.
#[tactic(auto, unfolding(crate::specs::reading::ClosingCounts::unmatched))]
fn comments_before(ends: Ends, octet: u8) -> usize
    requires { ends.comments < 2 ^ 64 - 1 }
    ensures { (t : List ℕ) → reading.AreEnds ends t → result ≡ counts.unmatched false (octet ∷ t) }
{
    match octet {
        b'\\' => ends.comments_escaped,
        b')' => ends.comments + 1,
        b'(' => ends.comments.saturating_sub(1),
        _ => ends.comments,
    }
}

/// Whether a text has a `>`, where the octet stands before it.
#[tactic(auto, unfolding(crate::specs::reading::ClosingCounts::has_greater))]
fn greater_before(greater: bool, octet: u8) -> bool
    ensures { (t : List ℕ) → greater ≡ counts.has_greater t → result ≡ counts.has_greater (octet ∷ t) }
{
    octet == b'>' || greater
}

/// What ends in the text with the octet before it.
fn before(ends: Ends, octet: u8) -> Ends
    requires { ends.comments < 2 ^ 64 - 1 }
    ensures { (t : List ℕ) → reading.AreEnds ends t → reading.AreEnds result (octet ∷ t) }
{
    Ends {
        comments: comments_before(ends, octet),
        comments_escaped: ends.comments,
        quote: closer_before(ends.quote, b'"', octet),
        literal: closer_before(ends.literal, b']', octet),
        greater: greater_before(ends.greater, octet),
    }
}

/// Whether the octet before the text opens what ends in it.
fn closes(ends: Ends, octet: u8) -> bool
    ensures { (t : List ℕ) → reading.AreEnds ends t → result ≡ counts.is_closed octet t }
{
    match octet {
        b'(' => ends.comments > 0,
        b'"' => ends.quote.plain,
        b'[' => ends.literal.plain,
        b'<' => ends.greater,
        _ => false,
    }
}

/// Of each octet of the text whether it opens a bracket that is closed, the last octet first.
pub fn closings(alloc: Global, text: &[u8]) -> Result<Vec<bool>, AllocError>
    ensures { IfOk result (λ v. v.items ≡ counts.closings text.now) }
{
    let mut closed = Vec::with_capacity(alloc, text.len())?;
    let mut ends = no_ends();
    let mut at = text.len();
    while at > 0 {
        at -= 1;
        let octet = text[at];
        closed.push(closes(ends, octet))?;
        ends = before(ends, octet);
    }
    Ok(closed)
}
