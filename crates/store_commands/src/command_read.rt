// Commands at the front of octets.
ghost use Rattle.std.specs.Prelude.{◌≡◌, IfOk, MatchResult};
ghost use Rattle.store_commands.specs.Answers.{IsReadAs, BeginsWithCommand};
ghost use Rattle.store_commands.specs.reading.Commands as reading;
ghost use Rattle.store_commands.specs.reading.Asked as asked;
ghost use Rattle.command_parts.specs.reading.Steps.{ReadingGives};

use crate::folder_arguments::{append, create, delete, login, rename, select, subscribe};
use crate::message_arguments::{expunge, fetch, move_to, store};
use crate::request::{CommandRequest, command_of};
use command_parts::{Choice, FixedText, NoCommand, read_choice, read_tag};
use imap_types::Command;
use octets::Bytes;
use std::alloc::{AllocError, Global};

/// What octets are that a client sends.
#[derive(Debug, PartialEq, Drop)]
pub enum CommandRead {
    /// They begin with a whole command.
    Whole {
        /// Octets of the command, its line's end among them.
        length: usize,
        tag: Bytes,
        command: Command,
    },
    /// They begin a command, and are none yet. The client goes on by itself.
    NeedMore,
    /// They begin a command and end with the head of a literal: the client waits for a continuation (RFC 9051 section 7.6).
    WantsLiteral,
    /// The octet at this place is the first that no command has there.
    Bad(usize),
}

/// The arguments of a command on folders, up to its end.
#[tactic(auto, unfolding(crate::specs::reading::Commands::folder_arguments_at))]
fn folder_arguments(word: FixedText, bytes: &[u8]) -> Result<(CommandRequest, &[u8]), NoCommand>
    ensures { ReadingGives (λ x. (asked.command_asked x.0, x.1.now)) result (reading.folder_arguments_at word bytes.now) }
{
    match word {
        FixedText::Login => login(bytes),
        FixedText::Select => select(bytes),
        FixedText::Append => append(bytes),
        FixedText::Create => create(bytes),
        FixedText::Delete => delete(bytes),
        FixedText::Rename => rename(bytes),
        FixedText::Subscribe => subscribe(bytes, true),
        _ => subscribe(bytes, false),
    }
}

/// The arguments of a command on messages, up to its end.
#[tactic(auto, unfolding(crate::specs::reading::Commands::message_arguments_at))]
fn message_arguments(word: FixedText, bytes: &[u8]) -> Result<(CommandRequest, &[u8]), NoCommand>
    ensures { ReadingGives (λ x. (asked.command_asked x.0, x.1.now)) result (reading.message_arguments_at word bytes.now) }
{
    match word {
        FixedText::Fetch => fetch(bytes),
        FixedText::Store => store(bytes),
        FixedText::Move => move_to(bytes),
        FixedText::Expunge => expunge(bytes),
        _ => folder_arguments(word, bytes),
    }
}

/// What follows the text with which a command begins.
#[tactic(auto, unfolding(crate::specs::reading::Commands::arguments_at))]
fn arguments(word: FixedText, bytes: &[u8]) -> Result<(CommandRequest, &[u8]), NoCommand>
    ensures { ReadingGives (λ x. (asked.command_asked x.0, x.1.now)) result (reading.arguments_at word bytes.now) }
{
    match word {
        FixedText::Capability => Ok((CommandRequest::Capability, bytes)),
        FixedText::Enable => Ok((CommandRequest::Enable, bytes)),
        FixedText::Unselect => Ok((CommandRequest::Unselect, bytes)),
        FixedText::List => Ok((CommandRequest::List { special_use: false }, bytes)),
        FixedText::ListAtom => Ok((CommandRequest::List { special_use: false }, bytes)),
        FixedText::ListSubscribed => Ok((CommandRequest::List { special_use: false }, bytes)),
        FixedText::ListAtomSubscribed => Ok((CommandRequest::List { special_use: false }, bytes)),
        FixedText::ListSpecialUse => Ok((CommandRequest::List { special_use: true }, bytes)),
        FixedText::ListAtomSpecialUse => Ok((CommandRequest::List { special_use: true }, bytes)),
        _ => message_arguments(word, bytes),
    }
}

/// What is asked at the front with its tag, and what follows it.
#[tactic(auto, unfolding(crate::specs::reading::Commands::command_at))]
fn read_tagged(bytes: &[u8]) -> Result<((&[u8], CommandRequest), &[u8]), NoCommand>
    ensures { ReadingGives (λ x. ((x.0.0.now, asked.command_asked x.0.1), x.1.now)) result (reading.command_at bytes.now) }
{
    let (tag, rest) = read_tag(bytes)?;
    let (word, rest) = read_choice(Choice::Commands, rest)?;
    let (request, rest) = arguments(word, rest)?;
    Ok(((tag, request), rest))
}

/// What is answered where there is no whole command.
fn answer_without(reason: NoCommand, length: usize) -> CommandRead
    ensures { result ≡ reading.answer_without reason length }
{
    match reason {
        NoCommand::NeedMore => CommandRead::NeedMore,
        NoCommand::WantsLiteral => CommandRead::WantsLiteral,
        NoCommand::Bad(left) => CommandRead::Bad(length.saturating_sub(left)),
    }
}

/// A whole command of so many octets.
fn whole(
    alloc: Global,
    length: usize,
    tag: &[u8],
    request: &CommandRequest,
) -> Result<CommandRead, AllocError>
    ensures { IfOk result (λ read. read ≡ CommandRead.Whole length tag.now (asked.command_asked request.now)) }
{
    let tag = Bytes::copy_of(alloc, tag)?;
    let command = command_of(alloc, request)?;
    Ok(CommandRead::Whole {
        length,
        tag,
        command,
    })
}

/// The command at the front of octets that a client sends, or why there is none. It is read as a store reads it: words in letters
/// of any case, names as atoms or in quotes, users and passwords so or as literals. Every other text than those of `Command` is
/// Bad, also where it is another command of RFC 9051. Memory is asked only for a whole command. Each call reads from the first octet on, so
/// it is to be called once for all octets that came together.
pub fn read_command(alloc: Global, bytes: &[u8]) -> Result<CommandRead, AllocError>
    ensures { MatchResult result (λ read. IsReadAs bytes.now read) (λ _. BeginsWithCommand bytes.now) }
{
    match read_tagged(bytes) {
        Ok(((tag, request), rest)) => {
            whole(alloc, bytes.len().saturating_sub(rest.len()), tag, &request)
        }
        Err(reason) => Ok(answer_without(reason, bytes.len())),
    }
}
