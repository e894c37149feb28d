// Texts that compare without regard to the case of letters.
ghost use Rattle.std.specs.Prelude.{◌≡◌, IfOk, map};
ghost use Rattle.std.proofs.Common.{rules};
ghost use Rattle.std.specs.Cmp.{partial_order_from_own_ties};
ghost use Rattle.std.specs.Cmp.Lexicographic.{slice_cmp};
ghost use Rattle.std.specs.Cmp.Rules.{comparing};
ghost use Rattle.std.specs.Option.{option_cmp, option_copied, option_map};
ghost use Rattle.std.specs.Ordering.{as_partial_cmp, eq_by_cmp, nat_cmp};
ghost use Rattle.query_orders.specs.Texts.{folded};
ghost use Rattle.query_orders.specs.reading.Keys.{IsSortedByKeys};
ghost use Rattle.query_orders.specs.reading.Joined.{joined};

use crate::keys::sorted_by_keys;
use std::alloc::{AllocError, Global};
use std::cmp::Ordering;
use std::marker::Model;

/// Octets that contracts see as a list, which they don't of a `&[u8]` within a key. They compare as they are: a text is made small
/// before.
#[derive(Drop)]
struct FoldedText<'a> {
    octets: &'a [u8],
}

impl<'a> Model for FoldedText<'a> {
    ghost use Rattle.std.specs.Prelude.{List, ℕ};

    ghost Value = { List ℕ };

    ghost view = { λ t. t.octets.now };
}

impl<'a> PartialEq for FoldedText<'a> {
    ghost eq = { eq_by_cmp (slice_cmp nat_cmp) };

    ghost laws = { Prim.search (comparing, rules) };

    fn eq(&self, other: &FoldedText<'a>) -> bool {
        self.octets.cmp(other.octets) == Ordering::Equal
    }
}

impl<'a> Eq for FoldedText<'a> {
    ghost laws = { Prim.search (comparing, rules) };
}

impl<'a> PartialOrd for FoldedText<'a> {
    ghost partial_cmp = { as_partial_cmp (slice_cmp nat_cmp) };

    ghost laws = { partial_order_from_own_ties (Prim.search (comparing, rules)) (Prim.search (comparing, rules)) };

    fn partial_cmp(&self, other: &FoldedText<'a>) -> Option<Ordering> {
        Some(self.cmp(other))
    }
}

impl<'a> Ord for FoldedText<'a> {
    ghost cmp = { slice_cmp nat_cmp };

    ghost total = { Prim.search (comparing, rules) };

    ghost matches_partial_cmp = { Prim.search (comparing, rules) };

    ghost matches_eq = { Prim.search (comparing, rules) };

    fn cmp(&self, other: &FoldedText<'a>) -> Ordering {
        self.octets.cmp(other.octets)
    }
}

/// The texts that there are, one after another.
fn joined_texts(alloc: Global, texts: &[Option<&[u8]>]) -> Result<Vec<u8>, AllocError>
    ensures { IfOk result (λ v. v.items ≡ joined (map option_copied texts.now)) }
{
    let mut octets = Vec::new(alloc);
    for text in texts {
        match text {
            Some(text) => octets.extend_from_slice(text)?,
            None => {}
        }
    }
    Ok(octets)
}

/// The texts in small letters, of which these are the octets one after another.
fn cut_texts<'a>(
    alloc: Global,
    texts: &[Option<&[u8]>],
    letters: &'a [u8],
) -> Result<Vec<Option<FoldedText<'a>>>, AllocError>
    requires { letters.now ≡ folded (joined (map option_copied texts.now)) }
    ensures { IfOk result (λ v. v.items ≡ map (option_map folded) (map option_copied texts.now)) }
{
    let mut keys = Vec::with_capacity(alloc, texts.len())?;
    let mut left = letters;
    for text in texts {
        match text {
            Some(text) => {
                let (octets, rest) = left.split_at(text.len());
                keys.push(Some(FoldedText { octets }))?;
                left = rest;
            }
            None => keys.push(None)?,
        }
    }
    Ok(keys)
}

/// Values in the order of their texts, where A to Z count as a to z and what is missing comes first. All texts are copied into one
/// piece of memory, since a comparison of texts that lie far from one another takes much longer.
pub(crate) fn sorted_by_texts<V: Copy>(
    alloc: Global,
    texts: &[Option<&[u8]>],
    values: &[V],
    is_ascending: bool,
) -> Result<Vec<V>, AllocError>
    ensures { IfOk result (λ v. IsSortedByKeys is_ascending (option_cmp (slice_cmp nat_cmp))
        (map (option_map folded) (map option_copied texts.now)) values.now v.items) }
{
    let mut letters = joined_texts(alloc, texts)?;
    letters.make_ascii_lowercase();
    let keys = cut_texts(alloc, texts, letters.as_slice())?;
    sorted_by_keys(alloc, keys, values, is_ascending)
}
