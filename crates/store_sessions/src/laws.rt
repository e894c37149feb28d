// What holds of commands as they are read, and of a client's session. Each function is a theorem: its contract states it.
ghost use Rattle.std.specs.Prelude.{List, Ok, ℕ};
ghost use Rattle.gate_world.specs.declared.event.Event.{Event};
ghost use Rattle.honest_store.specs.Sessions.{StoreSession};
ghost use Rattle.imap_types.specs.declared.command.Command.{Command};
ghost use Rattle.small_responses.specs.Tellable.{IsTellableCommand};
ghost use Rattle.store_commands.specs.Answers.{IsCommand};
ghost use Rattle.store_sessions.specs.Answered.{IsAnswered};
ghost use Rattle.store_sessions.specs.Sessions.{ServesClient};

use store_commands::{answer_stays, read_may_be_asked};

/// What is read as a command the store can answer in octets.
pub fn read_may_be_told()
    ensures { (b tag : List ℕ) (command : Command) → IsCommand tag command b → IsTellableCommand command }
{
    read_may_be_asked();
}

/// Whoever is served to the end took the greeting and then, in order, the answer to each command that its octets are, however they
/// were cut.
pub fn clients_are_answered()
    ensures { (s t : StoreSession) (events : List Event) → ServesClient s events t (Ok tt) → IsAnswered s events t }
{
    answer_stays();
}
