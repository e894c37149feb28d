// The arguments of commands that name users and folders, up to the command's end (RFC 9051 sections 6.2 and 6.3).
ghost use Rattle.std.specs.Prelude.{◌≡◌};
ghost use Rattle.store_commands.specs.reading.Arguments as reading;
ghost use Rattle.imap_values.specs.Strings as texts;
ghost use Rattle.store_commands.specs.reading.Asked as asked;
ghost use Rattle.command_parts.specs.reading.Steps.{ReadingGives};

use crate::request::CommandRequest;
use command_parts::{
    FixedText, Follow, NoCommand, read_credential, read_date, read_fixed, read_flags,
    read_last_name, read_literal, read_name, read_number, read_numeral,
};

/// A user and a password.
#[tactic(auto, unfolding(crate::specs::reading::Arguments::login_at))]
pub fn login(bytes: &[u8]) -> Result<(CommandRequest, &[u8]), NoCommand>
    ensures { ReadingGives (λ x. (asked.command_asked x.0, x.1.now)) result (reading.login_at bytes.now) }
{
    let (user, rest) = read_credential(bytes, Follow::Space)?;
    let (password, rest) = read_credential(rest, Follow::Line)?;
    let (_, rest) = read_fixed(FixedText::LineFeed, rest)?;
    Ok((CommandRequest::Login { user, password }, rest))
}

/// The validity and the mod-sequence of a folder that is known: "(QRESYNC (" number SP number "))" (RFC 7162 section 3.2.5).
#[tactic(auto, unfolding(crate::specs::reading::Arguments::known_at))]
fn known(bytes: &[u8]) -> Result<((u32, u64), &[u8]), NoCommand>
    ensures { ReadingGives (λ x. (x.0, x.1.now)) result (reading.known_at bytes.now) }
{
    let (_, rest) = read_fixed(FixedText::Qresync, bytes)?;
    let ((validity, _), rest) = read_number(rest, Follow::Space)?;
    let ((modseq, _), rest) = read_numeral(rest, u64::MAX, Follow::Close)?;
    let (_, rest) = read_fixed(FixedText::KnownEnd, rest)?;
    Ok(((validity, modseq), rest))
}

/// What follows the name of a folder that is selected, by the octet behind it.
#[tactic(auto, unfolding(crate::specs::reading::Arguments::selected_at, crate::specs::reading::Arguments::known_folder_at, crate::specs::reading::Arguments::new_folder_at))]
fn selected<'a>(
    name: &'a [u8],
    end: u8,
    bytes: &'a [u8],
) -> Result<(CommandRequest<'a>, &'a [u8]), NoCommand>
    ensures { ReadingGives (λ x. (asked.command_asked x.0, x.1.now)) result (reading.selected_at (texts.astring_in name.now).0 end bytes.now) }
{
    if end == b' ' {
        let (known, rest) = known(bytes)?;
        let known = Some(known);
        return Ok((CommandRequest::Select { name, known }, rest));
    }
    let (_, rest) = read_fixed(FixedText::LineFeed, bytes)?;
    Ok((CommandRequest::Select { name, known: None }, rest))
}

/// A folder's name, and what is known of the folder.
#[tactic(auto, unfolding(crate::specs::reading::Arguments::select_at))]
pub fn select(bytes: &[u8]) -> Result<(CommandRequest, &[u8]), NoCommand>
    ensures { ReadingGives (λ x. (asked.command_asked x.0, x.1.now)) result (reading.select_at bytes.now) }
{
    let ((name, end), rest) = read_name(bytes, Follow::SpaceOrLine)?;
    selected(name, end, rest)
}

/// A folder's name, flags, a date and a message.
#[tactic(auto, unfolding(crate::specs::reading::Arguments::append_at))]
pub fn append(bytes: &[u8]) -> Result<(CommandRequest, &[u8]), NoCommand>
    ensures { ReadingGives (λ x. (asked.command_asked x.0, x.1.now)) result (reading.append_at bytes.now) }
{
    let ((name, _), rest) = read_name(bytes, Follow::Space)?;
    let (_, rest) = read_fixed(FixedText::Open, rest)?;
    let (flags, rest) = read_flags(rest)?;
    let (_, rest) = read_fixed(FixedText::Space, rest)?;
    let (date, rest) = read_date(rest)?;
    let (_, rest) = read_fixed(FixedText::LiteralOpen, rest)?;
    let (message, rest) = read_literal(rest, Follow::Line)?;
    let (_, rest) = read_fixed(FixedText::LineFeed, rest)?;
    let request = CommandRequest::Append {
        name,
        flags,
        date,
        message,
    };
    Ok((request, rest))
}

/// A folder's name.
#[tactic(auto, unfolding(crate::specs::reading::Arguments::create_at))]
pub fn create(bytes: &[u8]) -> Result<(CommandRequest, &[u8]), NoCommand>
    ensures { ReadingGives (λ x. (asked.command_asked x.0, x.1.now)) result (reading.create_at bytes.now) }
{
    let (name, rest) = read_last_name(bytes)?;
    Ok((CommandRequest::Create { name }, rest))
}

/// A folder's name.
#[tactic(auto, unfolding(crate::specs::reading::Arguments::delete_at))]
pub fn delete(bytes: &[u8]) -> Result<(CommandRequest, &[u8]), NoCommand>
    ensures { ReadingGives (λ x. (asked.command_asked x.0, x.1.now)) result (reading.delete_at bytes.now) }
{
    let (name, rest) = read_last_name(bytes)?;
    Ok((CommandRequest::Delete { name }, rest))
}

/// A folder's name and the one that it is to have.
#[tactic(auto, unfolding(crate::specs::reading::Arguments::rename_at))]
pub fn rename(bytes: &[u8]) -> Result<(CommandRequest, &[u8]), NoCommand>
    ensures { ReadingGives (λ x. (asked.command_asked x.0, x.1.now)) result (reading.rename_at bytes.now) }
{
    let ((from, _), rest) = read_name(bytes, Follow::Space)?;
    let (to, rest) = read_last_name(rest)?;
    Ok((CommandRequest::Rename { from, to }, rest))
}

/// A folder's name.
#[tactic(auto, unfolding(crate::specs::reading::Arguments::subscribe_at))]
pub fn subscribe(bytes: &[u8], on: bool) -> Result<(CommandRequest, &[u8]), NoCommand>
    ensures { ReadingGives (λ x. (asked.command_asked x.0, x.1.now)) result (reading.subscribe_at on bytes.now) }
{
    let (name, rest) = read_last_name(bytes)?;
    Ok((CommandRequest::Subscribe { name, on }, rest))
}
