// Numbers of folders, found by the folders' names.
ghost use Rattle.std.specs.Prelude.{◌≡◌, ℕ, List, Some, None, OnOk, OnErr, IfOk, if◌then◌else◌};
ghost use Rattle.told_mail.specs.Mail.{is_same};
ghost use Rattle.told_mail.specs.reading.Names.{place_in};

use std::alloc::{AllocError, Global};
use std::collections::BTreeMap;

/// Gives the name this number. The name is copied; a refusal changes nothing.
pub fn put_name(
    alloc: Global,
    numbers: &mut BTreeMap<Vec<u8>, u64>,
    name: &[u8],
    number: u64,
) -> Result<(), AllocError>
    ensures ok { OnOk result ((q : List ℕ) → place_in numbers.new q ≡ (if is_same name.now q then Some number else place_in numbers.old q)) }
    ensures err { OnErr result ((q : List ℕ) → place_in numbers.new q ≡ place_in numbers.old q) }
{
    numbers.insert(name.to_vec(alloc)?, number)?;
    Ok(())
}

/// Takes the name out.
pub fn cut_name(numbers: &mut BTreeMap<Vec<u8>, u64>, name: &[u8])
    ensures { (q : List ℕ) → place_in numbers.new q ≡ (if is_same name.now q then None else place_in numbers.old q) }
{
    numbers.remove(name);
}

/// Gives the number another name. A refusal changes nothing.
pub fn change_name(
    alloc: Global,
    numbers: &mut BTreeMap<Vec<u8>, u64>,
    old: &[u8],
    new: &[u8],
    number: u64,
) -> Result<(), AllocError>
    ensures ok { OnOk result ((q : List ℕ) → place_in numbers.new q ≡ (if is_same new.now q then Some number else (if is_same old.now q then None else place_in numbers.old q))) }
    ensures err { OnErr result ((q : List ℕ) → place_in numbers.new q ≡ place_in numbers.old q) }
{
    put_name(alloc, numbers, new, number)?;
    if old != new {
        cut_name(numbers, old);
    }
    Ok(())
}

/// The same numbers, under copies of the names.
pub fn copy_numbers(numbers: &BTreeMap<Vec<u8>, u64>) -> Result<BTreeMap<Vec<u8>, u64>, AllocError>
    ensures { IfOk result (λ copy. (q : List ℕ) → place_in copy q ≡ place_in numbers.now q) }
{
    numbers.clone()
}
