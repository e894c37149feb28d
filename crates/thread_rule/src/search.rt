// The Thread of a new Email by one of its ids, from the index.
ghost use Rattle.std.specs.Prelude.{◌≡◌, None, Some, MatchOption};
ghost use Rattle.std.specs.BTreeSet.{IsOrdered};
ghost use Rattle.std.specs.List.Sorted.{IsStrictlySortedBy};
ghost use Rattle.thread_rule.specs.Ids.{ids_in};
ghost use Rattle.thread_rule.specs.Threads as threads;
ghost use Rattle.thread_rule.specs.reading.Index as indexed;

use crate::ids::next_id;
use crate::index::{Entries, KeyIndex};
use crate::key::Key;
use crate::member::Member;
use std::collections::BTreeMap;
use text_words::same_text;

/// The Emails that are there, by number.
pub type Members = BTreeMap<u64, Member>;

/// The Thread that was found before, or else that of the lowest Email at the key that names the id and has an equal base
/// subject.
pub fn found_or_shared(
    found: Option<u64>,
    members: &Members,
    index: &KeyIndex,
    key: Key,
    id: &[u8],
    base: &[u8],
) -> Option<u64>
    ensures found { MatchOption found
        (result ≡ indexed.first_thread members.now.entries base.now id.now (indexed.emails_at index.now key))
        (λ thread. result ≡ Some thread) }
    ensures ordered { found ≡ None → IsStrictlySortedBy indexed.entry_cmp (indexed.list_at index.now (indexed.front key)) }
{
    match found {
        Some(thread) => Some(thread),
        None => shared(members, index, key, id, base),
    }
}

/// The Thread of the lowest Email at the key that names the id and has an equal base subject.
fn shared(members: &Members, index: &KeyIndex, key: Key, id: &[u8], base: &[u8]) -> Option<u64>
    ensures first { result ≡ indexed.first_thread members.now.entries base.now id.now (indexed.emails_at index.now key) }
    ensures ordered { IsStrictlySortedBy indexed.entry_cmp (indexed.list_at index.now (indexed.front key)) }
{
    match index.entries_beside(key) {
        None => None,
        Some(entries) => shared_in(members, entries, key, id, base),
    }
}

/// The same among these entries.
fn shared_in(members: &Members, entries: &Entries, key: Key, id: &[u8], base: &[u8]) -> Option<u64>
    ensures first { result ≡ indexed.first_thread members.now.entries base.now id.now (indexed.numbers_at key entries.now.keys) }
    ensures ordered { IsOrdered indexed.entry_cmp entries.now }
{
    for entry in entries.range((key, 0)..) {
        if entry.0 != key {
            return None;
        }
        if let Some(thread) = thread_if(members, entry.1, id, base) {
            return Some(thread);
        }
    }
    None
}

/// The Thread of the Email, where it names the id and has an equal base subject.
fn thread_if(members: &Members, email: u64, id: &[u8], base: &[u8]) -> Option<u64>
    ensures { result ≡ indexed.thread_if (threads.member_at members.now.entries email) base.now id.now None }
{
    match members.get(&email) {
        None => None,
        Some(member) => thread_where_shared(member, id, base),
    }
}

fn thread_where_shared(member: &Member, id: &[u8], base: &[u8]) -> Option<u64>
    ensures { result ≡ indexed.thread_if (Some member.now) base.now id.now None }
{
    if has_id(member.ids.as_text(), id) && same_text(member.base.as_slice(), base) {
        Some(member.thread)
    } else {
        None
    }
}

/// Whether an id of the text is this one.
fn has_id(text: &[u8], id: &[u8]) -> bool
    ensures { result ≡ threads.is_among (ids_in text.now) id.now }
{
    let mut rest = text;
    while let Some((other, more)) = next_id(rest) {
        if id == other {
            return true;
        }
        rest = more;
    }
    false
}
