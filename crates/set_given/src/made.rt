// The folders that a call made.
ghost use Rattle.std.specs.Prelude.{◌≡◌, ◌==◌, ◌∷◌, ◌<◌, ◌^◌, [], ℕ, List, true, OnErr, OnOk, bytes_eq};
ghost use Rattle.std.specs.List.{list_any};
ghost use Rattle.std.specs.Map.{lookup};
ghost use Rattle.set_given.specs.Given.{MadeFolders as Made};
ghost use Rattle.set_given.specs.reading.Makings.{IsMade};

use std::alloc::{AllocError, Global};
use std::collections::{BTreeMap, BTreeSet};

/// The folders that a call made so far.
#[derive(Drop)]
pub struct MadeFolders<'a> {
    /// Their numbers, by creation id.
    by_key: BTreeMap<&'a str, u64>,
    /// Their numbers.
    numbers: BTreeSet<u64>,
}

impl<'a> MadeFolders<'a> {
    /// None yet.
    pub fn new(alloc: Global) -> MadeFolders<'a>
        ensures { IsMade result [] }
    {
        MadeFolders {
            by_key: BTreeMap::new(alloc),
            numbers: BTreeSet::new(alloc),
        }
    }

    /// Adds the folder that was made for a creation id. Where memory runs out, nothing is added.
    pub fn add(&mut self, key: &'a str, number: u64) -> Result<(), AllocError>
        ensures ok { (s : Made) → IsMade self.old s → OnOk result (IsMade self.new ((key.now, number) ∷ s)) }
        ensures err { (s : Made) → IsMade self.old s → OnErr result (IsMade self.new s) }
    {
        let added = self.numbers.insert(number)?;
        match self.by_key.insert(key, number) {
            Ok(_) => Ok(()),
            Err(error) => {
                if added {
                    self.numbers.remove(&number);
                }
                Err(error.into())
            }
        }
    }

    /// The number of the folder that was made for the creation id, as it was last.
    pub fn by_key(&self, key: &str) -> Option<u64>
        ensures { (s : Made) → IsMade self.now s → result ≡ lookup (bytes_eq key.now) s }
    {
        self.by_key.get(key).copied()
    }

    /// Does nothing, and shows that each number has at most 64 bits.
    pub(crate) fn numbers_are_small(&self)
        ensures { (s : Made) → IsMade self.now s → (n : ℕ) → list_any (λ (e : List ℕ × ℕ). e.1 == n) s ≡ true → n < 2 ^ 64 }
    {
        match self.numbers.last() {
            Some(number) => {
                // (its type says how many bits it has)
                let _last = *number;
            }
            None => {}
        }
    }

    /// Whether a folder of the number was made.
    pub fn has(&self, number: u64) -> bool
        ensures { (s : Made) → IsMade self.now s → result ≡ list_any (λ (e : List ℕ × ℕ). e.1 == number) s }
    {
        self.numbers.contains(&number)
    }
}
