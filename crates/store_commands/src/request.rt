// What is asked, as its octets stand in a command.
ghost use Rattle.std.specs.Prelude.{◌≡◌, IfOk};
ghost use Rattle.imap_values.specs.Strings as texts;
ghost use Rattle.imap_values.specs.Spans as spans;
ghost use Rattle.command_parts.specs.reading.Strings as strings;
ghost use Rattle.store_commands.specs.reading.Asked as asked;

use command_parts::Credential;
use imap_types::Command;
use imap_values::{astring_in, flags_in};
use octets::{Bytes, Names};
use std::alloc::{AllocError, Global};

/// A command whose texts are lent by the octets that were read. A name and flags stand at the front of theirs.
#[derive(Clone, Copy)]
pub enum CommandRequest<'a> {
    Capability,
    Login {
        user: Credential<'a>,
        password: Credential<'a>,
    },
    Enable,
    List {
        special_use: bool,
    },
    Select {
        name: &'a [u8],
        known: Option<(u32, u64)>,
    },
    Unselect,
    FetchFlags,
    FetchSlice {
        from: u32,
        to: u32,
        modseq: bool,
    },
    FetchNew {
        from: u32,
        modseq: bool,
    },
    FetchBody {
        uid: u32,
    },
    Store {
        uid: u32,
        add: bool,
        flags: &'a [u8],
    },
    Move {
        uid: u32,
        name: &'a [u8],
    },
    Expunge {
        uid: u32,
    },
    Append {
        name: &'a [u8],
        flags: &'a [u8],
        date: i64,
        message: &'a [u8],
    },
    Create {
        name: &'a [u8],
    },
    Delete {
        name: &'a [u8],
    },
    Rename {
        from: &'a [u8],
        to: &'a [u8],
    },
    Subscribe {
        name: &'a [u8],
        on: bool,
    },
}

/// The atom or the quoted text at the front.
fn text_of(alloc: Global, bytes: &[u8]) -> Result<Bytes, AllocError>
    ensures { IfOk result (λ s. s ≡ (texts.astring_in bytes.now).0) }
{
    let (text, _) = astring_in(alloc, bytes)?;
    Ok(text)
}

/// The flags at the front, as they are kept: in lower case, in order, each once, without `\recent`.
fn names_of(alloc: Global, bytes: &[u8]) -> Result<Names, AllocError>
    ensures { IfOk result (λ names. names ≡ (spans.flags_in bytes.now).0) }
{
    let (names, _) = flags_in(alloc, bytes)?;
    Ok(names)
}

fn credential_of(alloc: Global, credential: &Credential) -> Result<Bytes, AllocError>
    ensures { IfOk result (λ s. s ≡ strings.credential_of credential.now) }
{
    match credential {
        Credential::Text(bytes) => text_of(alloc, bytes),
        Credential::Literal(octets) => Bytes::copy_of(alloc, octets),
    }
}

fn login(alloc: Global, user: &Credential, password: &Credential) -> Result<Command, AllocError>
    ensures { IfOk result (λ c. c ≡ Command.Login (strings.credential_of user.now) (strings.credential_of password.now)) }
{
    let user = credential_of(alloc, user)?;
    let password = credential_of(alloc, password)?;
    Ok(Command::Login { user, password })
}

fn append(
    alloc: Global,
    name: &[u8],
    flags: &[u8],
    date: i64,
    message: &[u8],
) -> Result<Command, AllocError>
    ensures { IfOk result (λ c. c ≡ Command.Append (texts.astring_in name.now).0 (spans.flags_in flags.now).0 date message.now) }
{
    let name = text_of(alloc, name)?;
    let flags = names_of(alloc, flags)?;
    let message = Bytes::copy_of(alloc, message)?;
    Ok(Command::Append {
        name,
        flags,
        date,
        message,
    })
}

fn rename(alloc: Global, from: &[u8], to: &[u8]) -> Result<Command, AllocError>
    ensures { IfOk result (λ c. c ≡ Command.Rename (texts.astring_in from.now).0 (texts.astring_in to.now).0) }
{
    let from = text_of(alloc, from)?;
    let to = text_of(alloc, to)?;
    Ok(Command::Rename { from, to })
}

/// The command that is asked.
pub fn command_of(alloc: Global, request: &CommandRequest) -> Result<Command, AllocError>
    ensures { IfOk result (λ c. c ≡ asked.command_asked request.now) }
{
    match request {
        CommandRequest::Capability => Ok(Command::Capability),
        CommandRequest::Login { user, password } => login(alloc, user, password),
        CommandRequest::Enable => Ok(Command::Enable),
        CommandRequest::List { special_use } => Ok(Command::List {
            special_use: *special_use,
        }),
        CommandRequest::Select { name, known } => {
            let name = text_of(alloc, name)?;
            let known = *known;
            Ok(Command::Select { name, known })
        }
        CommandRequest::Unselect => Ok(Command::Unselect),
        CommandRequest::FetchFlags => Ok(Command::FetchFlags),
        CommandRequest::FetchSlice { from, to, modseq } => Ok(Command::FetchSlice {
            from: *from,
            to: *to,
            modseq: *modseq,
        }),
        CommandRequest::FetchNew { from, modseq } => Ok(Command::FetchNew {
            from: *from,
            modseq: *modseq,
        }),
        CommandRequest::FetchBody { uid } => Ok(Command::FetchBody { uid: *uid }),
        CommandRequest::Store { uid, add, flags } => {
            let flags = names_of(alloc, flags)?;
            let (uid, add) = (*uid, *add);
            Ok(Command::Store { uid, add, flags })
        }
        CommandRequest::Move { uid, name } => {
            let name = text_of(alloc, name)?;
            let uid = *uid;
            Ok(Command::Move { uid, name })
        }
        CommandRequest::Expunge { uid } => Ok(Command::Expunge { uid: *uid }),
        CommandRequest::Append {
            name,
            flags,
            date,
            message,
        } => append(alloc, name, flags, *date, message),
        CommandRequest::Create { name } => {
            let name = text_of(alloc, name)?;
            Ok(Command::Create { name })
        }
        CommandRequest::Delete { name } => {
            let name = text_of(alloc, name)?;
            Ok(Command::Delete { name })
        }
        CommandRequest::Rename { from, to } => rename(alloc, from, to),
        CommandRequest::Subscribe { name, on } => {
            let name = text_of(alloc, name)?;
            let on = *on;
            Ok(Command::Subscribe { name, on })
        }
    }
}
