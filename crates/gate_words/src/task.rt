// What words ask for, and why they ask nothing.
ghost use Rattle.std.specs.Prelude.{◌≡◌};
ghost use Rattle.gate_words.specs.declared.task.WordsError.TheVariants.{Memory};

use crate::{Page, Place};
use octets::Text;
use std::alloc::AllocError;
use thiserror::Error;

/// What the words ask for.
#[derive(Debug, Drop)]
pub enum Task {
    /// Answers clients over HTTP, at the address `listen`; ends after this many connections.
    Serve {
        place: Place,
        /// An address, `:` and a port; which text is one isn't looked at here.
        listen: Text,
        /// From 1 to `MAX_CONNECTIONS`.
        connections: u64,
    },
    /// Answers one request on standard input.
    Once {
        place: Place,
    },
    /// Shows the message on standard input as an Email object.
    Show,
    /// Serves a small store in memory, at the address `listen`; ends after this many connections.
    Store {
        /// An address, `:` and a port; which text is one isn't looked at here.
        listen: Text,
        /// From 1 to `MAX_CONNECTIONS`.
        connections: u64,
    },
    /// Asks a store what serving asks it at first, and says whether it can be used.
    Check {
        /// The store's address.
        store: Text,
        /// The user at the store, which is not empty and has no control character.
        user: Text,
    },
    /// Writes a page of help.
    Explain {
        page: Page,
    },
}

/// Why words are no task.
#[derive(Clone, Copy, Debug, PartialEq, Eq, Error)]
pub enum WordsError {
    /// No task is spelled so.
    #[error("words refused")]
    Refused,
    /// Out of memory before it was known whether they are a task.
    #[error("out of memory")]
    Memory,
}

impl From<AllocError> for WordsError {
    ghost from_gives = { λ _ e. e ≡ Memory };

    fn from(_: AllocError) -> WordsError {
        WordsError::Memory
    }
}
