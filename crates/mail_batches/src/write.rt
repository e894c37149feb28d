// Items are written. Numbers stand with their highest octet first.
ghost use Rattle.std.specs.Prelude.{◌≡◌, ◌++◌, OnOk};
ghost use Rattle.mail_batches.specs.Items.{half, long, signed, text, texts, optional, folder_text, set_text, put_text, item_text};

use crate::Item;
use octets::Names;
use std::alloc::AllocError;
use told_mail::{Folder, Message};

/// The octets with which items begin.
pub const FOLDER_PUT: u8 = 1;

pub const FOLDER_GONE: u8 = 2;

pub const MESSAGE_PUT: u8 = 3;

pub const MESSAGE_SET: u8 = 4;

pub const MESSAGE_GONE: u8 = 5;

fn write_half(out: &mut Vec<u8>, number: u32) -> Result<(), AllocError>
    ensures { OnOk result (out.new.items ≡ out.old.items ++ half number) }
{
    out.extend_from_slice(&number.to_be_bytes())?;
    Ok(())
}

fn write_long(out: &mut Vec<u8>, number: u64) -> Result<(), AllocError>
    ensures { OnOk result (out.new.items ≡ out.old.items ++ long number) }
{
    out.extend_from_slice(&number.to_be_bytes())?;
    Ok(())
}

fn write_signed(out: &mut Vec<u8>, number: i64) -> Result<(), AllocError>
    ensures { OnOk result (out.new.items ≡ out.old.items ++ signed number) }
{
    out.extend_from_slice(&number.to_be_bytes())?;
    Ok(())
}

fn write_text(out: &mut Vec<u8>, octets: &[u8]) -> Result<(), AllocError>
    ensures { OnOk result (out.new.items ≡ out.old.items ++ text octets.now) }
{
    write_long(out, octets.len() as u64)?;
    out.extend_from_slice(octets)?;
    Ok(())
}

fn write_texts(out: &mut Vec<u8>, names: &Names) -> Result<(), AllocError>
    ensures { OnOk result (out.new.items ≡ out.old.items ++ texts names.now) }
{
    write_long(out, names.len() as u64)?;
    for name in names.as_slice() {
        write_text(out, name.as_slice())?;
    }
    Ok(())
}

fn write_optional(out: &mut Vec<u8>, octet: Option<u8>) -> Result<(), AllocError>
    ensures { OnOk result (out.new.items ≡ out.old.items ++ optional octet) }
{
    out.push(octet.unwrap_or(0))?;
    Ok(())
}

fn write_folder(out: &mut Vec<u8>, folder: &Folder) -> Result<(), AllocError>
    ensures { OnOk result (out.new.items ≡ out.old.items ++ folder_text folder.now) }
{
    write_long(out, folder.number)?;
    write_text(out, folder.name.as_slice())?;
    write_optional(out, folder.delimiter)?;
    write_texts(out, &folder.attributes)?;
    write_half(out, folder.validity)?;
    write_long(out, folder.modseq)?;
    write_long(out, folder.next)?;
    Ok(())
}

/// Where a message stands, and its flags.
fn write_set(
    out: &mut Vec<u8>,
    mark: u64,
    folder: u64,
    uid: u32,
    flags: &Names,
) -> Result<(), AllocError>
    ensures { OnOk result (out.new.items ≡ out.old.items ++ set_text mark folder uid flags.now) }
{
    write_long(out, mark)?;
    write_long(out, folder)?;
    write_half(out, uid)?;
    write_texts(out, flags)
}

fn write_message(out: &mut Vec<u8>, folder: u64, message: &Message) -> Result<(), AllocError>
    ensures { OnOk result (out.new.items ≡ out.old.items ++ put_text folder message.now) }
{
    write_set(out, message.mark, folder, message.uid, &message.flags)?;
    write_signed(out, message.date)?;
    write_long(out, message.size)?;
    write_text(out, message.header.as_slice())?;
    Ok(())
}

/// Adds the octets of an item.
pub fn write_item(out: &mut Vec<u8>, item: &Item) -> Result<(), AllocError>
    ensures { OnOk result (out.new.items ≡ out.old.items ++ item_text item.now) }
{
    match item {
        Item::MessageGone { mark } => {
            out.push(MESSAGE_GONE)?;
            write_long(out, *mark)
        }
        Item::FolderGone { number } => {
            out.push(FOLDER_GONE)?;
            write_long(out, *number)
        }
        Item::FolderPut { folder } => {
            out.push(FOLDER_PUT)?;
            write_folder(out, folder)
        }
        Item::MessagePut { folder, message } => {
            out.push(MESSAGE_PUT)?;
            write_message(out, *folder, message)
        }
        Item::MessageSet {
            mark,
            folder,
            uid,
            flags,
        } => {
            out.push(MESSAGE_SET)?;
            write_set(out, *mark, *folder, *uid, flags)
        }
    }
}
