// Mail as text.
use octets::Names;
use std::alloc::{AllocError, Global};
use test_rows::put_octets;
use told_mail::{Message, Mirror, NumberedFolder};

fn put_names(out: &mut String, names: &Names) -> Result<(), AllocError> {
    for name in names.as_slice() {
        put_octets(out, name.as_slice())?;
    }
    Ok(())
}

fn put_messages(out: &mut String, messages: &[Message]) -> Result<(), AllocError> {
    for message in messages {
        write!(out, " {}#{}", message.uid, message.mark)?;
        put_names(out, &message.flags)?;
    }
    Ok(())
}

fn put_folder(out: &mut String, held: &NumberedFolder) -> Result<(), AllocError> {
    let folder = &held.folder;
    write!(out, "{} ", folder.number)?;
    put_octets(out, folder.name.as_slice())?;
    put_names(out, &folder.attributes)?;
    let (validity, modseq, next) = (folder.validity, folder.modseq, folder.next);
    write!(out, " {validity} {modseq} {next}:")?;
    put_messages(out, held.messages.as_slice())?;
    out.push(';')
}

/// Each folder as its number, name and attributes, validity, modseq and next, and of each message the UID, mark and flags.
pub(crate) fn shown(alloc: Global, mirror: &Mirror) -> Result<String, AllocError> {
    let mut out = String::new(alloc);
    for held in mirror.folders() {
        put_folder(&mut out, held)?;
    }
    Ok(out)
}
