//! Visible messages that have no row yet.
ghost use Rattle.std.specs.Prelude.{◌≡◌, [], ◌∷◌, ◌++◌, filter, IfOk, OnOk};
ghost use Rattle.mail_maps.specs.Visible.{placed_in};
ghost use Rattle.mail_rows.specs.reading.RowPass as passes;

use mail_maps::visible::is_served;
use std::alloc::{AllocError, Global};
use std::collections::BTreeMap;
use std::marker::Model;
use told_folder::{Message, NumberedFolder};

/// A message that becomes an Email.
#[derive(Drop)]
pub struct Arrival {
    /// The folder's number.
    pub folder: u64,
    /// The message, whose octets are shared with the mirror.
    pub message: Message,
}

impl Model for Arrival {
    ghost use Rattle.mail_maps.specs.Visible.{Placed};

    ghost Value = { Placed };

    ghost view = { λ a. record { folder = a.folder; message = a.message } };
}

/// Whether the message is visible and has no row.
fn is_new(marks: &BTreeMap<u64, u64>, message: &Message) -> bool
    ensures { result ≡ passes.is_new_message marks.now message.now }
{
    is_served(message) && !marks.contains_key(&message.mark)
}

/// One message more, whose octets are shared.
fn add(
    alloc: Global,
    arrivals: &mut Vec<Arrival>,
    folder: u64,
    message: &Message,
) -> Result<(), AllocError>
    ensures { OnOk result (arrivals.new.items ≡ arrivals.old.items ++ record { folder = folder; message = message.now } ∷ []) }
{
    let message = message.share(alloc)?;
    arrivals.push(Arrival { folder, message })?;
    Ok(())
}

/// Adds the messages of a folder that have no row.
fn add_folder(
    alloc: Global,
    arrivals: &mut Vec<Arrival>,
    held: &NumberedFolder,
    marks: &BTreeMap<u64, u64>,
) -> Result<(), AllocError>
    ensures { OnOk result (arrivals.new.items ≡ arrivals.old.items ++ filter (passes.is_unmarked marks.now) (placed_in held.now)) }
{
    let folder = held.folder.number;
    for message in held.messages.as_slice() {
        if is_new(marks, message) {
            add(alloc, arrivals, folder, message)?;
        }
    }
    Ok(())
}

/// The visible messages that have no row, by folder number and then UID.
pub fn arrivals_in(
    alloc: Global,
    folders: &[NumberedFolder],
    marks: &BTreeMap<u64, u64>,
) -> Result<Vec<Arrival>, AllocError>
    ensures { IfOk result (λ v. v.items ≡ passes.unmarked marks.now folders.now) }
{
    let mut arrivals = Vec::new(alloc);
    for held in folders {
        add_folder(alloc, &mut arrivals, held, marks)?;
    }
    Ok(arrivals)
}
