// Mailboxes that are to be made, in order: one that is below another of the call waits for that.
ghost use Rattle.std.specs.Prelude.{◌≡◌, ◌≢◌, ◌<◌, ◌||◌, ◌∷◌, ◌++◌, [], ℕ, List, IfOk, IfSome, IsTrue, OnOk, false, is_some, map, option_and_then, option_map};
ghost use Rattle.std.specs.BTreeMap.{btree_map_len};
ghost use Rattle.serde_json.specs.Find.{as_str, get_member};
ghost use Rattle.serde_json.specs.View.{members_view};
ghost use Rattle.jmap_arguments.specs.Arguments.{is_among};
ghost use Rattle.set_arguments.specs.Arguments.{Keyed as KeyedData};
ghost use Rattle.set_arguments.specs.reading.Keys.{ascends, keyed_data};
ghost use Rattle.set_order.specs.Ordered.{next_of, parent_in, waits, without_key};
ghost use Rattle.set_order.specs.reading.Ordering.{ArePlaced};
ghost use Rattle.set_order.specs.reading.Waiting.{IsPending, entry_data, left_in, ready_in, waiting_at, waiting_in};

use crate::creations::creation_in;
use jmap_arguments::is_new;
use serde_json::{Map, Value};
use set_arguments::Keyed;
use std::alloc::{AllocError, Global};
use std::collections::{BTreeMap, BTreeSet};

/// Mailboxes that are to be made and aren't in order yet.
#[derive(Drop)]
pub(crate) struct Pending<'a> {
    /// By creation id.
    left: BTreeMap<&'a str, &'a Map<String, Value>>,
    /// The creation ids of those that wait for no other of them.
    ready: BTreeSet<&'a str>,
    /// Of those that wait, the creation ids by the one that they wait for.
    waiting: BTreeMap<&'a str, Vec<&'a str>>,
}

/// The text at the name.
fn text_at<'a>(object: &'a Map<String, Value>, name: &str) -> Option<&'a str>
    ensures { option_map (λ t. t.now) result ≡ option_and_then as_str (get_member name.now (members_view object.now.entries)) }
{
    object.get(name)?.as_str()
}

/// The creation id that the parent is named by.
fn parent_key<'a>(object: &'a Map<String, Value>) -> Option<&'a str>
    ensures { option_map (λ t. t.now) result ≡ parent_in (members_view object.now.entries) }
{
    creation_in(text_at(object, "parentId")?)
}

/// Those that are to be made, by creation id. Their keys ascend.
fn left_of<'a>(
    alloc: Global,
    create: &Vec<Keyed<'a>>,
) -> Result<BTreeMap<&'a str, &'a Map<String, Value>>, AllocError>
    requires { IsTrue (ascends (map keyed_data create.now.items)) }
    ensures { IfOk result (λ left. map entry_data left.entries ≡ map keyed_data create.now.items) }
{
    let mut left = BTreeMap::new(alloc);
    for creation in create {
        left.insert(creation.key, creation.object)?;
    }
    Ok(left)
}

/// Those that wait for the one of this key, which are taken out.
fn take_waiting<'a>(
    alloc: Global,
    waiting: &mut BTreeMap<&'a str, Vec<&'a str>>,
    key: &'a str,
) -> Vec<&'a str>
    ensures taken { map (λ t. t.now) result.items ≡ waiting_at waiting.old key.now }
    ensures others { (k : List ℕ) → k ≢ key.now → waiting_at waiting.new k ≡ waiting_at waiting.old k }
{
    match waiting.remove(key) {
        Some(waiters) => waiters,
        None => Vec::new(alloc),
    }
}

/// One more waits for the one of this key.
fn put_waiting<'a>(
    alloc: Global,
    waiting: &mut BTreeMap<&'a str, Vec<&'a str>>,
    parent: &'a str,
    key: &'a str,
) -> Result<(), AllocError>
    ensures here { OnOk result (waiting_at waiting.new parent.now ≡ waiting_at waiting.old parent.now ++ key.now ∷ []) }
    ensures others { OnOk result ((k : List ℕ) → k ≢ parent.now → waiting_at waiting.new k ≡ waiting_at waiting.old k) }
{
    let mut waiters = take_waiting(alloc, waiting, parent);
    waiters.push(key)?;
    waiting.insert(parent, waiters)?;
    Ok(())
}

/// Puts texts into a set.
fn put_all<'a>(set: &mut BTreeSet<&'a str>, texts: &Vec<&'a str>) -> Result<(), AllocError>
    ensures { OnOk result ((other : List ℕ) → is_among other (map (λ k. k.now) set.new.keys)
        ≡ (is_among other (map (λ t. t.now) texts.now.items) || is_among other (map (λ k. k.now) set.old.keys))) }
{
    for text in texts {
        is_new(set, *text)?;
    }
    Ok(())
}

impl<'a> Pending<'a> {
    /// Its parent, where that is among those that are left.
    fn parent_left(&self, creation: Keyed<'a>) -> Option<&'a str>
        ensures parent { IfSome result (λ p. parent_in (keyed_data creation.entry).1 ≡ Some p.now) }
        ensures waits { is_some result ≡ waits (left_in self.now) (keyed_data creation.entry) }
    {
        let parent = parent_key(creation.object)?;
        if self.left.contains_key(parent) {
            Some(parent)
        } else {
            None
        }
    }

    /// One of those that are left waits for its parent, where that is among them, or is ready.
    fn place(&mut self, alloc: Global, creation: Keyed<'a>) -> Result<(), AllocError>
        ensures left { self.new.left ≡ self.old.left }
        ensures placed { OnOk result ((placed : KeyedData) → ArePlaced (left_in self.old) placed (ready_in self.old) (waiting_in self.old)
            → ArePlaced (left_in self.old) (placed ++ keyed_data creation.entry ∷ []) (ready_in self.new) (waiting_in self.new)) }
    {
        match self.parent_left(creation) {
            Some(parent) => {
                put_waiting(alloc, &mut self.waiting, parent, creation.key)?;
                Ok(())
            }
            None => {
                is_new(&mut self.ready, creation.key)?;
                Ok(())
            }
        }
    }

    /// All that are to be made. Their keys ascend.
    pub(crate) fn all(alloc: Global, create: &Vec<Keyed<'a>>) -> Result<Pending<'a>, AllocError>
        requires { IsTrue (ascends (map keyed_data create.now.items)) }
        ensures { IfOk result (λ p. IsPending p (map keyed_data create.now.items)) }
    {
        let left = left_of(alloc, create)?;
        let mut pending = Pending {
            left,
            ready: BTreeSet::new(alloc),
            waiting: BTreeMap::new(alloc),
        };
        for creation in create {
            pending.place(alloc, *creation)?;
        }
        Ok(pending)
    }

    /// Takes the first one out that waits for no other of those that are left.
    pub(crate) fn next(&mut self, alloc: Global) -> Result<Option<Keyed<'a>>, AllocError>
        ensures first { (pending : KeyedData) → IsPending self.old pending → IfOk result (λ o. option_map keyed_data o ≡ next_of pending) }
        ensures left { (pending : KeyedData) → IsPending self.old pending → IfOk result (λ o. IfSome o (λ c. IsPending self.new (without_key c.key.now pending))) }
        ensures none { IfOk result (λ o. is_some o ≡ false → left_in self.new ≡ left_in self.old) }
        ensures fewer { IfOk result (λ o. IfSome o (λ c. btree_map_len self.new.left < btree_map_len self.old.left)) }
    {
        let Some(key) = self.ready.pop_first() else {
            return Ok(None);
        };
        let Some(object) = self.left.remove(key) else {
            return Ok(None);
        };
        let waiters = take_waiting(alloc, &mut self.waiting, key);
        put_all(&mut self.ready, &waiters)?;
        Ok(Some(Keyed { key, object }))
    }

    /// Those that are left, by creation id.
    pub(crate) fn left(&self) -> &BTreeMap<&'a str, &'a Map<String, Value>>
        ensures { result.now ≡ self.now.left }
    {
        &self.left
    }
}
