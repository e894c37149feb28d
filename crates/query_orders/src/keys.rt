// Values sorted by keys.
ghost use Rattle.std.specs.Prelude.{◌≡◌, IfOk, IsPermutation, OnOk, map};
ghost use Rattle.std.specs.List.{zip};
ghost use Rattle.query_orders.specs.reading.Keys.{IsSortedByKeys, IsStableSort, by_key};

use std::alloc::{AllocError, Global};

/// The keys of rows.
fn keys_of<T, K: Drop, F: Fn(&T) -> K>(
    alloc: Global,
    rows: &[T],
    key: F,
) -> Result<Vec<K>, AllocError>
    requires { F.IsAlwaysCallable key }
    ensures { IfOk result (λ v. (k : T → K) → ((x : _) (r : K) → F.post key x r → r ≡ k x.now) → v.items ≡ map k rows.now) }
{
    let mut keys = Vec::with_capacity(alloc, rows.len())?;
    for row in rows {
        keys.push(key(row))?;
    }
    Ok(keys)
}

/// Each key beside its value.
fn paired<K: Drop, V: Copy>(
    alloc: Global,
    keys: Vec<K>,
    values: &[V],
) -> Result<Vec<(K, V)>, AllocError>
    ensures { IfOk result (λ v. v.items ≡ zip keys.items values.now) }
{
    let mut keys = keys.into_iter();
    let mut pairs = Vec::with_capacity(alloc, values.len())?;
    for value in values {
        match keys.next() {
            Some(key) => pairs.push((key, *value))?,
            None => return Ok(pairs),
        }
    }
    Ok(pairs)
}

/// Sorts by keys; those with one key stay in their order.
fn sort_pairs<K: Ord + Drop, V: Copy>(
    pairs: &mut Vec<(K, V)>,
    is_ascending: bool,
) -> Result<(), AllocError>
    ensures permutation { IsPermutation pairs.old.items pairs.new.items }
    ensures sorted { OnOk result (IsStableSort (by_key is_ascending K.cmp (λ p. p.0)) pairs.old.items pairs.new.items) }
{
    if is_ascending {
        pairs.sort_by(|one, other| one.0.cmp(&other.0))
    } else {
        pairs.sort_by(|one, other| other.0.cmp(&one.0))
    }
}

/// The values alone.
fn values_of<K: Drop, V: Copy>(alloc: Global, pairs: Vec<(K, V)>) -> Result<Vec<V>, AllocError>
    ensures { IfOk result (λ v. v.items ≡ map (λ p. p.1) pairs.items) }
{
    let mut values = Vec::with_capacity(alloc, pairs.len())?;
    for pair in &pairs {
        values.push(pair.1)?;
    }
    Ok(values)
}

/// Values in the order of keys, of which each has one; those with one key stay in their order.
pub(crate) fn sorted_by_keys<K: Ord + Drop, V: Copy>(
    alloc: Global,
    keys: Vec<K>,
    values: &[V],
    is_ascending: bool,
) -> Result<Vec<V>, AllocError>
    ensures { IfOk result (λ v. IsSortedByKeys is_ascending K.cmp keys.items values.now v.items) }
{
    let mut pairs = paired(alloc, keys, values)?;
    sort_pairs(&mut pairs, is_ascending)?;
    values_of(alloc, pairs)
}

/// Values in the order of the keys of rows, of which each has a value. Each key is made once.
pub(crate) fn sorted_by<T, K: Ord + Drop, V: Copy, F: Fn(&T) -> K>(
    alloc: Global,
    rows: &[T],
    values: &[V],
    is_ascending: bool,
    key: F,
) -> Result<Vec<V>, AllocError>
    requires { F.IsAlwaysCallable key }
    ensures { IfOk result (λ v. (k : T → K) → ((x : _) (r : K) → F.post key x r → r ≡ k x.now)
        → IsSortedByKeys is_ascending K.cmp (map k rows.now) values.now v.items) }
{
    let keys = keys_of(alloc, rows, key)?;
    sorted_by_keys(alloc, keys, values, is_ascending)
}
