// What stands unread is read once.
ghost use Rattle.std.specs.Prelude.{◌≡◌, ◌⊎◌, ◌≤◌, ℕ, List, length, IfOk, OnErr};
ghost use Rattle.honest_store.specs.Sessions.{StoreAnswer};
ghost use Rattle.small_answers.specs.Answers.{AnswersCommand};
ghost use Rattle.small_responses.specs.AnswerTexts.{text_of_answer};
ghost use Rattle.small_responses.specs.Tellable.{IsTellableCommand, IsTellableMail};
ghost use Rattle.store_commands.specs.Answers.{IsReadAs};
ghost use Rattle.store_sessions.specs.reading.Asked.{AsksTellable};
ghost use Rattle.store_sessions.specs.Turns.{IsAnswer, Lacks, Turns, octets_read, octets_told};

use crate::command_store::CommandStore;
use crate::laws::read_may_be_told;
use imap_types::Command;
use std::alloc::{AllocError, Global};
use store_commands::{CommandRead, read_command};

/// What asks for a literal's octets (RFC 9051 section 7.6).
const GO_AHEAD: &[u8] = b"+ go\r\n";

/// What a client is told that gave no command (RFC 9051 section 3.4).
const NO_COMMAND: &[u8] = b"* BYE no such command\r\n";

/// What came of reading once.
#[derive(Debug, PartialEq, Drop)]
pub enum Turn {
    /// The command that is the first `length` octets was answered with these octets.
    Answer { length: usize, octets: Vec<u8> },
    /// The octets of a literal are asked for.
    GoAhead,
    /// More octets are waited for.
    Wait,
    /// No command begins so.
    End,
}

impl Turn {
    /// The octets that the client is told.
    pub fn octets(&self) -> &[u8]
        ensures { result.now ≡ octets_told self.now }
    {
        match self {
            Turn::Answer { octets, .. } => octets.as_slice(),
            Turn::GoAhead => GO_AHEAD,
            Turn::Wait => &[],
            Turn::End => NO_COMMAND,
        }
    }

    /// How many octets are read with it.
    pub fn length(&self) -> usize
        ensures { result ≡ octets_read self.now }
    {
        match self {
            Turn::Answer { length, .. } => *length,
            Turn::GoAhead => 0,
            Turn::Wait => 0,
            Turn::End => 0,
        }
    }
}

/// Answers the command that is the first `length` octets.
fn answer_command<S: CommandStore>(
    store: &mut S,
    length: usize,
    tag: &[u8],
    command: &Command,
) -> Result<Turn, AllocError>
    requires mail { IsTellableMail (S.session store.old).mail }
    requires told { IsTellableCommand command.now }
    ensures ok { IfOk result (λ turn. (a : StoreAnswer) × AnswersCommand (S.session store.old) command.now a (S.session store.new)
        × IsAnswer turn length (text_of_answer tag.now a)) }
    ensures err { OnErr result ((S.session store.new ≡ S.session store.old)
        ⊎ ((a : StoreAnswer) × AnswersCommand (S.session store.old) command.now a (S.session store.new))) }
    ensures mail { IsTellableMail (S.session store.new).mail }
{
    let octets = store.answer(tag, command)?;
    Ok(Turn::Answer { length, octets })
}

/// What comes of what was read.
fn turn_of<S: CommandStore>(store: &mut S, read: &CommandRead) -> Result<Turn, AllocError>
    requires mail { IsTellableMail (S.session store.old).mail }
    requires told { AsksTellable read.now }
    ensures ok { (unread : List ℕ) → IsReadAs unread read.now → IfOk result (Turns (S.session store.old) unread (S.session store.new)) }
    ensures length { (unread : List ℕ) → IsReadAs unread read.now → IfOk result (λ turn. octets_read turn ≤ length unread) }
    ensures err { (unread : List ℕ) → IsReadAs unread read.now → OnErr result (Lacks (S.session store.old) unread (S.session store.new)) }
    ensures mail { IsTellableMail (S.session store.new).mail }
{
    match read {
        CommandRead::Whole {
            length,
            tag,
            command,
        } => answer_command(store, *length, tag.as_slice(), command),
        CommandRead::NeedMore => Ok(Turn::Wait),
        CommandRead::WantsLiteral => Ok(Turn::GoAhead),
        CommandRead::Bad(_) => Ok(Turn::End),
    }
}

/// Reads once what stands unread, and answers the command at its front. Where memory is wanting the command did all that it does or
/// nothing.
pub fn take_turn<S: CommandStore>(
    alloc: Global,
    store: &mut S,
    unread: &[u8],
) -> Result<Turn, AllocError>
    requires mail { IsTellableMail (S.session store.old).mail }
    ensures ok { IfOk result (Turns (S.session store.old) unread.now (S.session store.new)) }
    ensures length { IfOk result (λ turn. octets_read turn ≤ length unread.now) }
    ensures err { OnErr result (Lacks (S.session store.old) unread.now (S.session store.new)) }
    ensures mail { IsTellableMail (S.session store.new).mail }
{
    read_may_be_told();
    let read = read_command(alloc, unread)?;
    turn_of(store, &read)
}
