// The first units of a list, and what follows them.
ghost use Rattle.std.specs.Prelude.{◌≡◌, ◌≢◌, ℕ, false, List, [], ◌∷◌, ◌++◌, MatchOption};
ghost use Rattle.text_words.specs.Cuts.{IsRun};

use crate::class::{Class, cut};

/// What stands after the octet, where the text begins with it.
pub fn behind(octet: u8, text: &[u8]) -> Option<&[u8]>
    ensures { MatchOption result ((t : List ℕ) → text.now ≢ octet ∷ t) (λ r. text.now ≡ octet ∷ r.now) }
{
    match text {
        [] => None,
        [first, rest @ ..] => { if *first == octet { Some(rest) } else { None } }
    }
}

/// A run of one or more octets of the class at the front and what stands after the octet `stop`, where `stop`
/// comes directly after the run.
pub fn run_before<'a, C: Class<u8>>(
    class: &C,
    stop: u8,
    text: &'a [u8],
) -> Option<(&'a [u8], &'a [u8])>
    requires { C.test stop ≡ false }
    ensures { MatchOption result
        ((x y : List ℕ) → IsRun C.test x → text.now ≢ x ++ stop ∷ y)
        (λ r. IsRun C.test r.0.now × (text.now ≡ r.0.now ++ stop ∷ r.1.now)) }
{
    let (run, rest) = cut(class, text);
    if run.is_empty() {
        return None;
    }
    match behind(stop, rest) {
        None => None,
        Some(rest) => Some((run, rest)),
    }
}

/// The first octet and those after it.
pub fn first(text: &[u8]) -> Option<(u8, &[u8])>
    ensures { MatchOption result (text.now ≡ []) (λ r. text.now ≡ r.0 ∷ r.1.now) }
{
    match text {
        [] => None,
        [first, rest @ ..] => Some((*first, rest)),
    }
}
