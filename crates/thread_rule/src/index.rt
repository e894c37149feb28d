// From the key of an id and a base subject to the numbers of the Emails that have both.
ghost use Rattle.std.specs.Prelude.{◌≡◌, ◌<◌, ℕ, [], true, false, length, OnOk, OnErr, MatchOption};
ghost use Rattle.thread_rule.specs.reading.Keys as keys;
ghost use Rattle.thread_rule.specs.reading.Index as indexed;

use crate::ids::{Ids, next_id};
use crate::key::{BaseHasher, Key, key_under};
use std::alloc::{AllocError, Global};
use std::collections::BTreeSet;
use std::marker::Model;

/// Entries, each a key with the number of one of its Emails, in order of the keys and of the numbers at one key.
pub type Entries = BTreeSet<(Key, u64)>;

/// The entries of all keys, in a tree for each front of a key. One tree of them all would be so deep that each look-up reads
/// memory in many places. Keys are digests with a secret, so the trees grow alike. Contracts see the lists of the trees.
#[derive(Drop)]
pub struct KeyIndex {
    trees: Vec<Entries>,
}

impl Model for KeyIndex {
    ghost use Rattle.std.specs.Prelude.{map};
    ghost use Rattle.thread_rule.specs.reading.Index.{EntryLists};

    ghost Value = { EntryLists };

    ghost view = { λ i. map (λ tree. tree.keys) i.trees.items };
}

/// How many keys have one front, which is the first 16 of a key's 64 bits.
const KEYS_OF_A_FRONT: u64 = 281_474_976_710_656;

/// The front of a key: one of 65,536 numbers.
fn front_of(key: Key) -> usize
    ensures { result ≡ indexed.front key }
{
    (key / KEYS_OF_A_FRONT) as usize
}

impl KeyIndex {
    /// An index without entries. It takes no memory.
    pub fn new(alloc: Global) -> KeyIndex
        ensures { result ≡ [] }
    {
        KeyIndex {
            trees: Vec::new(alloc),
        }
    }

    /// The entries of the keys that have the front of this one.
    pub fn entries_beside(&self, key: Key) -> Option<&Entries>
        ensures { MatchOption result
            (indexed.list_at self.now (indexed.front key) ≡ [])
            (λ entries. entries.now.keys ≡ indexed.list_at self.now (indexed.front key)) }
    {
        self.trees.get(front_of(key))
    }

    /// Makes trees up to that of a front.
    fn make_room(&mut self, front: usize) -> Result<(), AllocError>
        ensures same { (n : ℕ) → indexed.list_at self.new n ≡ indexed.list_at self.old n }
        ensures ok { OnOk result (front < length self.new) }
    {
        while self.trees.len() <= front {
            let alloc: Global = *self.trees.allocator();
            self.trees.push(BTreeSet::new(alloc))?;
        }
        Ok(())
    }

    /// Adds an entry.
    pub fn add(&mut self, key: Key, email: u64) -> Result<(), AllocError>
        ensures ok { OnOk result (indexed.SetsOne self.old self.new key email true) }
        ensures err { OnErr result (indexed.SameIndex self.old self.new) }
    {
        let front = front_of(key);
        self.make_room(front)?;
        self.add_at(front, key, email)
    }

    /// Adds an entry where its tree is there.
    fn add_at(&mut self, front: usize, key: Key, email: u64) -> Result<(), AllocError>
        requires front { front ≡ indexed.front key }
        requires room { front < length self.old }
        ensures ok { OnOk result (indexed.SetsOne self.old self.new key email true) }
        ensures err { OnErr result (indexed.SameIndex self.old self.new) }
    {
        self.trees[front].insert((key, email))?;
        Ok(())
    }

    /// Takes an entry out, if it is there. It takes no memory.
    fn remove(&mut self, key: Key, email: u64)
        ensures { indexed.SetsOne self.old self.new key email false }
    {
        let front = front_of(key);
        if front < self.trees.len() {
            self.trees[front].remove(&(key, email));
        }
    }
}

/// Takes the Email away at the key of each id under a base subject. It takes no memory.
pub fn remove_all(index: &mut KeyIndex, base: &BaseHasher, ids: &Ids, email: u64)
    ensures { indexed.SetsAll index.old index.new (keys.keys_under base.now ids.now) email false }
{
    let mut rest = ids.as_text();
    while let Some((id, more)) = next_id(rest) {
        let key = key_under(base, id);
        index.remove(key, email);
        rest = more;
    }
}
