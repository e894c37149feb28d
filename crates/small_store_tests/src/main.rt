//! What the small store answers and does: reads rows from standard input, octets of clients and what the store's owner does, and
//! prints what comes of them. The legend stands at the top of the file `stdin`, and what has to come of its rows in the file `stdout`.
#![tactic(auto)]

// Octets as text.
mod written;

// What a client asks, and what the owner does.
mod asking;
mod owner;

// What a client learns that comes back later.
mod copies;
mod history;

// Clients one after another.
mod clients;

use small_store::StoreMachine;
use std::alloc::{AllocError, Global};
use std::io;
use store_sessions::CommandStore;
use test_rows::{TestRows, answer_rows, first_word};

/// Does what a word says to the store, and adds what comes of it.
fn do_row(
    alloc: Global,
    store: &mut StoreMachine,
    (word, text): (&str, &str),
    out: &mut String,
) -> Result<(), AllocError> {
    match word {
        "begin" => {
            store.begin_session();
            Ok(())
        }
        "ask" => asking::ask(alloc, store, text, out),
        "still" => asking::ask_still(alloc, store, text, out),
        "turn" => asking::put_turn(alloc, store, text, out),
        "responds" => asking::put_response(alloc, store, text, out),
        "serve" => clients::serve(alloc, store, text, out),
        "history" => history::put_history(alloc, store, text, out),
        _ => owner::do_call(alloc, store, word, text, out),
    }
}

/// The store that the rows so far have left.
#[derive(Drop)]
struct Rows {
    store: StoreMachine,
    alloc: Global,
}

impl TestRows for Rows {
    /// Each title begins with a store of its own.
    fn begin(&mut self) -> Result<(), AllocError> {
        self.store = StoreMachine::new(self.alloc)?;
        Ok(())
    }

    fn take(&mut self, line: &str, out: &mut String) -> Result<(), AllocError> {
        do_row(self.alloc, &mut self.store, first_word(line), out)
    }
}

fn main(rt: HostRuntime) -> io::Result<()> {
    let alloc = rt.alloc();
    let store = StoreMachine::new(alloc)?;
    answer_rows(&rt, &mut Rows { store, alloc })
}
