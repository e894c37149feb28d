// Comparators of Emails that decide.
ghost use Rattle.std.specs.Prelude.{◌≡◌, ◌∷◌, ◌++◌, ℕ, List, IfOk, OnOk, Vec, map};
ghost use Rattle.std.specs.List.{AllByRecursion};
ghost use Rattle.std.specs.declared.alloc.Global as global;
ghost use Rattle.mail_maps.specs.Serve.{Email};
ghost use Rattle.query_orders.specs.Emails.{email_cmp};
ghost use Rattle.query_orders.specs.declared.comparators.EmailComparator as declared;
ghost use Rattle.query_orders.specs.reading.PropertyKeys.{HasProperty, property_key};

use crate::comparators::{EmailComparator, EmailSort};
use std::alloc::{AllocError, Global};
use std::collections::BTreeSet;

fn tagged(alloc: Global, tag: u8, keyword: &[u8]) -> Result<Vec<u8>, AllocError>
    ensures { IfOk result (λ key. key.items ≡ tag ∷ keyword.now) }
{
    let mut key = Vec::new(alloc);
    key.push(tag)?;
    key.extend_from_slice(keyword)?;
    Ok(key)
}

/// Octets that are those of this property alone.
fn key_of(alloc: Global, property: &EmailSort) -> Result<Vec<u8>, AllocError>
    ensures { IfOk result (λ key. key.items ≡ property_key property.now) }
{
    match property {
        EmailSort::ReceivedAt => tagged(alloc, 0, &[]),
        EmailSort::Size => tagged(alloc, 1, &[]),
        EmailSort::From => tagged(alloc, 2, &[]),
        EmailSort::To => tagged(alloc, 3, &[]),
        EmailSort::Subject => tagged(alloc, 4, &[]),
        EmailSort::SentAt => tagged(alloc, 5, &[]),
        EmailSort::HasKeyword(keyword) => tagged(alloc, 6, keyword.as_slice()),
        EmailSort::AllInThreadHaveKeyword(keyword) => tagged(alloc, 7, keyword.as_slice()),
        EmailSort::SomeInThreadHaveKeyword(keyword) => tagged(alloc, 8, keyword.as_slice()),
    }
}

/// Keeps a comparator whose property isn't seen yet; it is seen from here on.
fn keep<'a>(
    seen: &mut BTreeSet<Vec<u8>>,
    kept: &mut Vec<&'a EmailComparator>,
    key: Vec<u8>,
    comparator: &'a EmailComparator,
) -> Result<(), AllocError>
    requires seen { AllByRecursion (λ (k : Vec ℕ global.Global). HasProperty k.items (map (λ c. c.now) kept.old.items)) seen.old.keys }
    requires key { key.items ≡ property_key comparator.now.property }
    ensures seen { OnOk result (AllByRecursion (λ (k : Vec ℕ global.Global). HasProperty k.items (map (λ c. c.now) kept.new.items)) seen.new.keys) }
    ensures same { OnOk result ((emails : List (ℕ × Email)) (rest : List declared.EmailComparator) (a b : Email)
        → email_cmp emails (map (λ c. c.now) kept.new.items ++ rest) a b ≡ email_cmp emails (map (λ c. c.now) kept.old.items ++ comparator.now ∷ rest) a b) }
{
    let new = seen.insert(key)?;
    if new {
        kept.push(comparator)?;
        return Ok(());
    }
    Ok(())
}

/// The comparators but those whose property stands earlier: these decide nothing, in whatever direction.
pub(crate) fn deciding<'a>(
    alloc: Global,
    comparators: &'a [EmailComparator],
) -> Result<Vec<&'a EmailComparator>, AllocError>
    ensures { IfOk result (λ kept. (emails : List (ℕ × Email)) (a b : Email)
        → email_cmp emails (map (λ c. c.now) kept.items) a b ≡ email_cmp emails comparators.now a b) }
{
    let mut seen = BTreeSet::new(alloc);
    let mut kept = Vec::new(alloc);
    for comparator in comparators {
        let key = key_of(alloc, &comparator.property)?;
        keep(&mut seen, &mut kept, key, comparator)?;
    }
    Ok(kept)
}
