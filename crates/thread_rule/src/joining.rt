// A new Email comes into the index, and its Thread is found, id by id: so each key is made once, and its entry is put where
// the search has just read.
ghost use Rattle.std.specs.Prelude.{◌≡◌, ℕ, true, false, IfOk, OnOk, OnErr};
ghost use Rattle.thread_rule.specs.Threads as threads;
ghost use Rattle.thread_rule.specs.reading.Keys as keys;
ghost use Rattle.thread_rule.specs.reading.Index as indexed;

use crate::ids::next_id;
use crate::index::{KeyIndex, remove_all};
use crate::key::{base_hasher, key_under};
use crate::member::Named;
use crate::search::{Members, found_or_shared};
use std::alloc::AllocError;

/// Adds the Email at the key of each of its ids, and gives its Thread. It isn't there at any key before.
pub fn add_all(
    members: &Members,
    index: &mut KeyIndex,
    secret: u64,
    named: &Named,
) -> Result<u64, AllocError>
    requires index { indexed.IsIndexOf secret index.old members.now.entries }
    requires absent { (key : ℕ) → indexed.has_entry index.old key named.now.email ≡ false }
    ensures ok { OnOk result (indexed.SetsAll index.old index.new (keys.keys_under (keys.base_hasher secret named.now.base) named.now.ids) named.now.email true) }
    ensures is { IfOk result (λ thread. threads.IsThreadOf members.now.entries named.now.base named.now.email named.now.ids thread) }
    ensures only { IfOk result (λ thread. (t : ℕ) → threads.IsThreadOf members.now.entries named.now.base named.now.email named.now.ids t → t ≡ thread) }
    ensures err { OnErr result (indexed.SameIndex index.old index.new) }
{
    match add_each(members, index, secret, named) {
        Ok(thread) => Ok(thread),
        Err(error) => {
            let base = base_hasher(secret, named.base.as_slice());
            remove_all(index, &base, &named.ids, named.email);
            Err(error)
        }
    }
}

fn add_each(
    members: &Members,
    index: &mut KeyIndex,
    secret: u64,
    named: &Named,
) -> Result<u64, AllocError>
    requires { indexed.IsIndexOf secret index.old members.now.entries }
    ensures ok { OnOk result (indexed.SetsAll index.old index.new (keys.keys_under (keys.base_hasher secret named.now.base) named.now.ids) named.now.email true) }
    ensures is { IfOk result (λ thread. threads.IsThreadOf members.now.entries named.now.base named.now.email named.now.ids thread) }
    ensures only { IfOk result (λ thread. (t : ℕ) → threads.IsThreadOf members.now.entries named.now.base named.now.email named.now.ids t → t ≡ thread) }
    ensures err { OnErr result (indexed.SameApart index.old index.new (keys.keys_under (keys.base_hasher secret named.now.base) named.now.ids) named.now.email) }
{
    let base = base_hasher(secret, named.base.as_slice());
    let mut found = None;
    let mut rest = named.ids.as_text();
    while let Some((id, more)) = next_id(rest) {
        let key = key_under(&base, id);
        found = found_or_shared(found, members, index, key, id, named.base.as_slice());
        index.add(key, named.email)?;
        rest = more;
    }
    Ok(found.unwrap_or(named.email))
}
