// The ids of what a call created (RFC 8620 section 3.3).
ghost use Rattle.std.specs.Prelude.{◌≡◌, IfOk, OnOk, map, option_map, string_bytes};
ghost use Rattle.mail_state.specs.History.{MailHistory};
ghost use Rattle.mail_state.specs.State.{IsStateOf};
ghost use Rattle.set_order.specs.Ordered.{item_key};
ghost use Rattle.set_order.specs.reading.Items.{item_data};
ghost use Rattle.set_replies.specs.Created as spec;
ghost use Rattle.set_replies.specs.reading.Items.{done_data};
ghost use Rattle.set_replies.specs.reading.Types.{AreApart, served_in};

use jmap_arguments::{EMAIL_LETTER, MAILBOX_LETTER, id_text};
use jmap_core::CreatedIds;
use mail_state::MailState;
use set_jobs::Done;
use set_order::Item;
use std::alloc::{AllocError, Global};

/// The id of what an item made, where it is there.
fn id_made(alloc: Global, state: &MailState, done: &Done) -> Result<Option<String>, AllocError>
    ensures { AreApart state.now.rows.numbered.rows → IfOk result (λ o. option_map (λ id. string_bytes id) o ≡ spec.id_made (served_in state.now) done.now) }
{
    match done {
        Done::Made { mark, .. } => match state.email_by_mark(*mark) {
            None => Ok(None),
            Some(row) => Ok(Some(id_text(alloc, EMAIL_LETTER, row.number)?)),
        },
        Done::MadeMailbox { number } => match state.mailbox(*number) {
            None => Ok(None),
            Some(_) => Ok(Some(id_text(alloc, MAILBOX_LETTER, *number)?)),
        },
        _ => Ok(None),
    }
}

fn put_made(
    alloc: Global,
    state: &MailState,
    item: &Item<'_>,
    done: &Done,
    created: &mut CreatedIds,
) -> Result<(), AllocError>
    ensures { AreApart state.now.rows.numbered.rows → OnOk result (created.new
        ≡ spec.put_made (item_key (item_data item.now)) (spec.id_made (served_in state.now) done.now) created.old) }
{
    match id_made(alloc, state, done)? {
        None => Ok(()),
        Some(id) => created.put(alloc, item.key(), id.as_str()),
    }
}

fn put_all_made(
    alloc: Global,
    state: &MailState,
    done: &[(Item<'_>, Done)],
    created: &mut CreatedIds,
) -> Result<(), AllocError>
    ensures { AreApart state.now.rows.numbered.rows → OnOk result (created.new ≡ spec.created_in (served_in state.now) created.old (map done_data done.now)) }
{
    for entry in done {
        put_made(alloc, state, &entry.0, &entry.1, created)?;
    }
    Ok(())
}

/// Gives the creation id of each thing that the call made its id (RFC 8620 section 3.3), by the state after its commit.
pub fn put_created(
    alloc: Global,
    state: &MailState,
    done: &[(Item<'_>, Done)],
    created: &mut CreatedIds,
) -> Result<(), AllocError>
    ensures { (h : MailHistory) → IsStateOf h state.now → OnOk result (created.new ≡ spec.created_with h created.old (map done_data done.now)) }
{
    put_all_made(alloc, state, done, created)
}
