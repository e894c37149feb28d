// The Emails that are there, and the index beside them: one is put in, or taken out.
ghost use Rattle.std.specs.Prelude.{◌≡◌, ℕ, Bool, true, false, None, Some, IfOk, OnOk, OnErr, ◌==◌, if◌then◌else◌};
ghost use Rattle.std.specs.Ordering.{nat_cmp};
ghost use Rattle.std.specs.BTreeMap.{insert_entry, is_at};
ghost use Rattle.std.specs.Map.{remove_entry};
ghost use Rattle.thread_rule.specs.Threads as threads;
ghost use Rattle.thread_rule.specs.reading.Index as indexed;

use crate::index::{KeyIndex, remove_all};
use crate::joining::add_all;
use crate::key::base_hasher;
use crate::member::{Member, Named};
use crate::search::Members;
use std::alloc::AllocError;

/// Puts an Email in that isn't there, and gives the Thread that it is put under.
pub fn join_in(
    members: &mut Members,
    index: &mut KeyIndex,
    secret: u64,
    named: Named,
) -> Result<u64, AllocError>
    requires index { indexed.IsIndexOf secret index.old members.old.entries }
    requires absent { threads.member_at members.old.entries named.email ≡ None }
    ensures index { indexed.IsIndexOf secret index.new members.new.entries }
    ensures is { IfOk result (λ thread. threads.IsThreadOf members.old.entries named.base named.email named.ids thread) }
    ensures only { IfOk result (λ thread. (t : ℕ) → threads.IsThreadOf members.old.entries named.base named.email named.ids t → t ≡ thread) }
    ensures puts { IfOk result (λ thread. members.new.entries ≡ insert_entry nat_cmp members.old.entries named.email (threads.member_of named thread)) }
    ensures err { OnErr result (members.new.entries ≡ members.old.entries) }
{
    let thread = add_all(members, index, secret, &named)?;
    let Named { email, ids, base } = named;
    keep(members, index, secret, email, Member { ids, base, thread })?;
    Ok(thread)
}

/// Puts the Email in, whose ids are in the index already. A refusal takes them out again.
fn keep(
    members: &mut Members,
    index: &mut KeyIndex,
    secret: u64,
    email: u64,
    member: Member,
) -> Result<(), AllocError>
    ensures ok { OnOk result (members.new.entries ≡ insert_entry nat_cmp members.old.entries email member) }
    ensures at { OnOk result ((e : ℕ) → threads.member_at members.new.entries e
        ≡ (if email == e then Some member else threads.member_at members.old.entries e)) }
    ensures same { OnOk result (indexed.SameIndex index.old index.new) }
    ensures err { OnErr result (members.new.entries ≡ members.old.entries) }
    ensures undone { OnErr result (indexed.SetsAll index.old index.new (indexed.keys_of secret (Some member)) email false) }
{
    match members.insert(email, member) {
        Ok(_) => Ok(()),
        Err(failed) => {
            let (_, member) = failed.value;
            remove_member(index, secret, &member, email);
            Err(AllocError)
        }
    }
}

/// Takes the Email away at each of its keys.
fn remove_member(index: &mut KeyIndex, secret: u64, member: &Member, email: u64)
    ensures sets { indexed.SetsAll index.old index.new (indexed.keys_of secret (Some member.now)) email false }
{
    let base = base_hasher(secret, member.base.as_slice());
    remove_all(index, &base, &member.ids, email);
}

/// Takes an Email out, if it is there.
pub fn take_out(members: &mut Members, index: &mut KeyIndex, secret: u64, email: u64)
    requires { indexed.IsIndexOf secret index.old members.old.entries }
    ensures index { indexed.IsIndexOf secret index.new members.new.entries }
    ensures out { members.new.entries ≡ remove_entry (is_at (nat_cmp email)) members.old.entries }
{
    match members.remove(&email) {
        None => {}
        Some(member) => remove_member(index, secret, &member, email),
    }
}
