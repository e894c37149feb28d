// The items of a call in order: creations, updates, destroys.
ghost use Rattle.std.specs.Prelude.{◌≡◌, ◌++◌, ℕ, List, IfOk, IsTrue, OnOk, map};
ghost use Rattle.set_order.specs.reading.Creating.{HasKeys};
ghost use Rattle.set_order.specs.Ordered as spec;
ghost use Rattle.set_order.specs.Ordered.{ItemsOf, circle_items, created_items, each_once, making, updated_items};
ghost use Rattle.set_arguments.specs.reading.Asked.{asked_data};
ghost use Rattle.set_order.specs.reading.Items.{item_data};
ghost use Rattle.set_arguments.specs.reading.Keys.{ascends, keyed_data};
ghost use Rattle.set_order.specs.reading.Ordering.{AddsCreations, MakesInOrder};
ghost use Rattle.set_order.specs.reading.Waiting.{left_in};

use crate::creations::id_named;
use crate::item::Item;
use crate::pending::Pending;
use jmap_arguments::is_new;
use jmap_core::CreatedIds;
use set_arguments::{Keyed, SetAsked, SetMethod};
use std::alloc::{AllocError, Global};
use std::collections::BTreeSet;

/// The creation ids of what a call is to make.
pub fn creation_ids<'a>(
    alloc: Global,
    create: &Vec<Keyed<'a>>,
) -> Result<BTreeSet<&'a str>, AllocError>
    ensures { IfOk result (λ keys. HasKeys keys (making (map keyed_data create.now.items))) }
{
    let mut keys = BTreeSet::new(alloc);
    for creation in create {
        is_new(&mut keys, creation.key)?;
    }
    Ok(keys)
}

/// Adds those that are to be made, each as it is asked.
fn add_creations<'a>(items: &mut Vec<Item<'a>>, create: &Vec<Keyed<'a>>) -> Result<(), AllocError>
    ensures { OnOk result (map item_data items.new.items ≡ map item_data items.old.items ++ created_items (map keyed_data create.now.items)) }
{
    for creation in create {
        items.push(Item::Create(*creation))?;
    }
    Ok(())
}

/// Adds those that wait for themselves, in a circle.
fn add_circle<'a>(items: &mut Vec<Item<'a>>, pending: &Pending<'a>) -> Result<(), AllocError>
    ensures { OnOk result (map item_data items.new.items ≡ map item_data items.old.items ++ circle_items (left_in pending.now)) }
{
    for (key, _object) in pending.left().iter() {
        items.push(Item::Circle(*key))?;
    }
    Ok(())
}

/// Adds Mailboxes that are to be made: one that is below another of the call waits for that, and those that wait in a circle come last.
fn add_in_order<'a>(
    alloc: Global,
    items: &mut Vec<Item<'a>>,
    create: &Vec<Keyed<'a>>,
) -> Result<(), AllocError>
    requires { IsTrue (ascends (map keyed_data create.now.items)) }
    ensures { OnOk result (MakesInOrder (map keyed_data create.now.items) (map item_data items.old.items) (map item_data items.new.items)) }
{
    let mut pending = Pending::all(alloc, create)?;
    'creations: while let Some(creation) = pending.next(alloc)? {
        items.push(Item::Create(creation))?;
    }
    add_circle(items, &pending)?;
    Ok(())
}

/// Adds those that are to be made.
fn add_made<'a>(
    alloc: Global,
    method: SetMethod,
    items: &mut Vec<Item<'a>>,
    create: &Vec<Keyed<'a>>,
) -> Result<(), AllocError>
    requires { IsTrue (ascends (map keyed_data create.now.items)) }
    ensures { OnOk result (AddsCreations method (map keyed_data create.now.items) (map item_data items.old.items) (map item_data items.new.items)) }
{
    match method {
        SetMethod::EmailSet | SetMethod::EmailImport => add_creations(items, create),
        SetMethod::MailboxSet => add_in_order(alloc, items, create),
    }
}

fn add_updates<'a>(items: &mut Vec<Item<'a>>, update: &Vec<Keyed<'a>>) -> Result<(), AllocError>
    ensures { OnOk result (map item_data items.new.items ≡ map item_data items.old.items ++ updated_items (map keyed_data update.now.items)) }
{
    for change in update {
        items.push(Item::Update(*change))?;
    }
    Ok(())
}

/// What a text stands for: the id that a creation id of an earlier call has, and else itself.
fn stands_for<'a>(making: &BTreeSet<&str>, created: &'a CreatedIds, text: &'a str) -> &'a str
    ensures { (keys : List (List ℕ)) → HasKeys making.now keys → result.now ≡ spec.stands_for keys created.now text.now }
{
    match id_named(making, created, text) {
        Some(id) => id,
        None => text,
    }
}

/// Adds destroys, each object once, as it is named first.
fn add_destroys<'a>(
    alloc: Global,
    items: &mut Vec<Item<'a>>,
    making: &BTreeSet<&str>,
    created: &CreatedIds,
    destroy: &Vec<&'a str>,
) -> Result<(), AllocError>
    ensures { (keys : List (List ℕ)) → HasKeys making.now keys → OnOk result (map item_data items.new.items ≡ map item_data items.old.items
        ++ map spec.Destroy (each_once (spec.stands_for keys created.now) (map (λ t. t.now) destroy.now.items))) }
{
    let mut seen = BTreeSet::new(alloc);
    for text in destroy {
        let new = is_new(&mut seen, stands_for(making, created, *text))?;
        if new {
            items.push(Item::Destroy(*text))?;
        }
    }
    Ok(())
}

/// The items of a call in order (RFC 8620 section 5.3): creations, updates, destroys. Of Mailboxes that are to be made, one that is
/// below another of the call comes after that.
pub fn ordered_items<'a>(
    alloc: Global,
    method: SetMethod,
    created: &CreatedIds,
    asked: &SetAsked<'a>,
) -> Result<Vec<Item<'a>>, AllocError>
    ensures { IfOk result (λ items. ItemsOf method created.now (asked_data asked.now) (map item_data items.items)) }
{
    let making = creation_ids(alloc, &asked.create)?;
    let mut items = Vec::new(alloc);
    add_made(alloc, method, &mut items, &asked.create)?;
    add_updates(&mut items, &asked.update)?;
    add_destroys(alloc, &mut items, &making, created, &asked.destroy)?;
    Ok(items)
}
