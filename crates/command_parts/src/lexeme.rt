// Lexemes: parts of a command that are read octet by octet.
ghost use Rattle.std.specs.Prelude.{◌≡◌, ℕ};
ghost use Rattle.command_parts.specs.declared.lexeme.LexemeStep.{LexemeStep};
ghost use Rattle.command_parts.specs.reading.Steps.{ReadingGives, read_from};

use crate::no_command::NoCommand;
use imap_values::behind;

/// What an octet does to a lexeme.
#[derive(Clone, Copy)]
pub enum LexemeStep<S> {
    /// No text of it goes on so.
    Fail,
    /// It goes on.
    On(S),
    /// The octet is its last.
    End(S),
}

/// A part of a command, as far as it was read. It ends with an octet that only ends it, so what follows has no part in it.
pub trait Lexeme: Copy {
    /// What an octet does.
    ghost advance_of: { Self → ℕ → LexemeStep Self };

    /// What an octet does.
    fn advance(&self, c: u8) -> LexemeStep<Self>
        ensures { result ≡ advance_of self.now c };
}

/// The lexeme at the front, from this state on, and what follows it.
#[tactic(auto, using(crate::proofs::Loops::reads))]
pub fn read_lexeme<L: Lexeme>(start: L, bytes: &[u8]) -> Result<(L, &[u8]), NoCommand>
    ensures { ReadingGives (λ x. (x.0, x.1.now)) result (read_from L.advance_of start bytes.now) }
{
    let mut lexeme = start;
    for (i, c) in bytes.iter().enumerate() {
        match lexeme.advance(*c) {
            LexemeStep::Fail => return Err(NoCommand::Bad(bytes.len() - i)),
            LexemeStep::On(next) => lexeme = next,
            LexemeStep::End(last) => return Ok((last, behind(bytes, i + 1))),
        }
    }
    Err(NoCommand::NeedMore)
}
