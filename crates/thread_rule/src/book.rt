// The book of Threads: which Emails are there, by what they name, and in which Thread each is.
ghost use Rattle.std.specs.Prelude.{◌≡◌, ◌↔◌, ℕ, [], None, IfOk, OnErr, IsSome, MatchBool};
ghost use Rattle.std.specs.Ordering.{nat_cmp};
ghost use Rattle.std.specs.BTreeMap.{insert_entry, is_at};
ghost use Rattle.std.specs.Map.{remove_entry};
ghost use Rattle.thread_rule.specs.Threads as threads;

use crate::entries::{join_in, take_out};
use crate::index::KeyIndex;
use crate::member::Named;
use crate::search::Members;
use std::alloc::{AllocError, Global};
use std::collections::BTreeMap;
use std::marker::Model;

/// The Emails that were put and not forgotten, each in its Thread. Contracts see the list of them, by ascending number.
#[derive(Drop)]
pub struct ThreadBook {
    members: Members,
    index: KeyIndex,
    secret: u64,
}

impl Model for ThreadBook {
    ghost use Rattle.std.specs.Prelude.{List, ℕ};
    ghost use Rattle.thread_rule.specs.declared.member.Member.{Member};
    ghost use Rattle.thread_rule.specs.reading.Index.{IsIndexOf};

    ghost Value = { List (ℕ × Member) };

    ghost view = { λ b. b.members.entries };

    ghost invariant = { λ b. IsIndexOf b.secret b.index b.members.entries };
}

impl ThreadBook {
    /// A book without Emails. It takes no memory. Who writes the mail mustn't know the secret: with it ids can be chosen that
    /// make a book slow, though not wrong.
    pub fn new(alloc: Global, secret: u64) -> ThreadBook
        ensures { result ≡ [] }
    {
        ThreadBook {
            members: BTreeMap::new(alloc),
            index: KeyIndex::new(alloc),
            secret,
        }
    }

    /// Whether the Email is in the book.
    pub fn contains(&self, email: u64) -> bool
        ensures { MatchBool result
            (IsSome (threads.member_at self.now email))
            (threads.member_at self.now email ≡ None) }
    {
        self.members.contains_key(&email)
    }

    /// Takes an Email that isn't in the book into it, and gives its Thread: that of the lowest Email with an equal base
    /// subject which names the first of its ids that such an Email names, or its own number. It costs a key, a look-up and
    /// an entry for each id, and one pass over the ids of the Email that is found.
    pub fn join(&mut self, named: Named) -> Result<u64, AllocError>
        requires { threads.member_at self.old named.email ≡ None }
        ensures thread { IfOk result (λ thread. (t : ℕ) → threads.IsThreadOf self.old named.base named.email named.ids t ↔ (t ≡ thread)) }
        ensures puts { IfOk result (λ thread. self.new ≡ insert_entry nat_cmp self.old named.email (threads.member_of named thread)) }
        ensures err { OnErr result (self.new ≡ self.old) }
    {
        join_in(&mut self.members, &mut self.index, self.secret, named)
    }

    /// Takes an Email out of the book, if it is there. It takes no memory.
    pub fn forget(&mut self, email: u64)
        ensures { self.new ≡ remove_entry (is_at (nat_cmp email)) self.old }
    {
        take_out(&mut self.members, &mut self.index, self.secret, email);
    }
}
