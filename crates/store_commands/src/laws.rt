// What holds of commands as they are read. Each function is a theorem: its contract states it.
ghost use Rattle.std.specs.Prelude.{◌≡◌, ◌≢◌, ℕ, ◌<◌, ◌^◌, List, [], ◌++◌, length};
ghost use Rattle.imap_types.specs.Commands.{tag_of, command_text, command_pieces, joined_pieces};
ghost use Rattle.command_parts.specs.Fields.{IsTag};
ghost use Rattle.store_commands.specs.Answers.{IsCommand, IsReadAs, IsFinal};
ghost use Rattle.store_commands.specs.Written.{IsReadable, IsAskable, as_sent};

use crate::command_read::CommandRead;
use imap_types::Command;

/// No octets have two answers, so each of them comes exactly where it is right.
pub fn one_answer()
    ensures { (b : List ℕ) (p q : CommandRead) → IsReadAs b p → IsReadAs b q → p ≡ q }
{}

/// What is read as a command or as none stays so, whatever comes behind it: the cuts that a stream has don't matter.
pub fn answer_stays()
    ensures { (b more : List ℕ) (answer : CommandRead) → IsFinal answer → IsReadAs b answer → IsReadAs (b ++ more) answer }
{}

/// What `write_command` writes is read as the command that it was given.
pub fn written_is_read()
    ensures { (command : Command) (n : ℕ) (more : List ℕ) → n < 2 ^ 64 → IsReadable command
        → IsReadAs (command_text command n ++ more) (CommandRead.Whole (length (command_text command n)) (tag_of n) (as_sent command)) }
{}

/// Each of the pieces that `write_command` writes but the last ends where a literal is wanted.
pub fn piece_wants_literal()
    ensures { (command : Command) (n : ℕ) (sent left : List (List ℕ)) → n < 2 ^ 64 → IsReadable command → command_pieces command n ≡ sent ++ left
        → sent ≢ [] → left ≢ [] → IsReadAs (joined_pieces sent) CommandRead.WantsLiteral }
{}

/// What is read has a tag, and its command may be asked: numbers, names, flags and a date are within what they may be.
pub fn read_may_be_asked()
    ensures { (b tag : List ℕ) (command : Command) → IsCommand tag command b → IsTag tag × IsAskable command }
{}
