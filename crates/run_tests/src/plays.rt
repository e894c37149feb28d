// What is done over a world, and how that ends.
use crate::cut_world::CutWorld;
use gate_machine::{Machine, MailStatus, begin};
use gate_serving::{Door, Gate};
use gate_world::Watcher;
use gateway::{Place, run};
use imap_client::Client;
use mail_state::MailType;
use octets::Text;
use std::alloc::{AllocError, Global};
use test_rows::{first_number, first_word, octets_of};

/// The epoch of a machine that was opened.
const EPOCH: u64 = 7;

/// The words between bars. No text stands for no words.
pub(crate) fn words_of(alloc: Global, text: &str) -> Result<Vec<String>, AllocError> {
    let mut words = Vec::new(alloc);
    if text.is_empty() {
        return Ok(words);
    }
    for word in text.split('|') {
        let octets = octets_of(alloc, word)?;
        words.push(String::from_utf8_lossy(alloc, &octets)?)?;
    }
    Ok(words)
}

/// The status with which the program ends that has these words, and no watcher.
fn status_of(alloc: Global, words: &[String], world: &mut CutWorld) -> u8 {
    let mut watchers: Vec<Box<dyn Watcher>> = Vec::new(alloc);
    run(words, world, &mut watchers)
}

/// Runs the program with these words.
fn ran(alloc: Global, text: &str, world: &mut CutWorld) -> Result<String, AllocError> {
    let words = words_of(alloc, text)?;
    let status = status_of(alloc, &words, world);
    format!(in alloc; "status {status}")
}

fn gate(alloc: Global, world: &mut CutWorld) -> Result<Gate, AllocError> {
    let place = Place {
        store: Text::copy_of(alloc, "127.0.0.1:1")?,
        user: Text::copy_of(alloc, "alice")?,
        base: Text::copy_of(alloc, "http://127.0.0.1:8080")?,
    };
    Gate::open(alloc, world, Door::Bare, &place)
}

/// A gate answers a client.
fn put_answered(
    alloc: Global,
    gate: &mut Gate,
    world: &mut CutWorld,
    ended: &mut String,
) -> Result<(), AllocError> {
    let answered = gate.answer_one(alloc, world);
    write!(ended, " {answered:?}")
}

/// A gate answers this many clients.
fn served(alloc: Global, count: u64, world: &mut CutWorld) -> Result<String, AllocError> {
    let mut ended = String::from_str(alloc, "served")?;
    let mut gate = gate(alloc, world)?;
    for _ in 0..count {
        put_answered(alloc, &mut gate, world, &mut ended)?;
    }
    Ok(ended)
}

/// How the mail stands once a machine began, in a link life of its own.
fn standing_of(alloc: Global, machine: &mut Machine, world: &mut CutWorld) -> MailStatus {
    let mut client = Client::new(alloc);
    let standing = begin(alloc, machine, &mut client, world, b"alice");
    client.leave(world);
    standing
}

/// A machine begins.
fn put_begun(
    alloc: Global,
    machine: &mut Machine,
    world: &mut CutWorld,
    ended: &mut String,
) -> Result<(), AllocError> {
    let standing = standing_of(alloc, machine, world);
    let Some(known) = &machine.known else {
        return write!(ended, " {standing:?}");
    };
    let state = known.state();
    let (epoch, place) = (state.epoch(), state.list(MailType::Mailbox).place());
    write!(ended, " {standing:?} in epoch {epoch} at {place}")
}

/// A machine begins, and is forgotten, this often.
fn begun(alloc: Global, count: u64, world: &mut CutWorld) -> Result<String, AllocError> {
    let mut ended = String::from_str(alloc, "begun")?;
    let mut machine = Machine::opened(alloc, EPOCH)?;
    for _ in 0..count {
        put_begun(alloc, &mut machine, world, &mut ended)?;
        machine.forget();
    }
    Ok(ended)
}

/// Does a command, and says how that ended.
pub(crate) fn play(
    alloc: Global,
    command: &str,
    world: &mut CutWorld,
) -> Result<String, AllocError> {
    let (word, text) = first_word(command);
    let (count, _) = first_number(text);
    match word {
        "serve" => served(alloc, count, world),
        "begin" => begun(alloc, count, world),
        _ => ran(alloc, text, world),
    }
}
