//! The owner of a small store calls it 2,000 times, as a fixed seed draws the calls, and after each a client does a round over the
//! store's link. Prints how many calls changed the mail, and whether each round left the mirror as the store.
#![tactic(auto)]

// What calls the store, and what compares it with a mirror.
mod agreement;
mod owner;

// One call and one round after another.
mod walk;

use std::alloc::{AllocError, Global};
use std::io;
use walk::Walk;

/// How many calls there are.
const STEPS: u64 = 2_000;

/// Adds what comes of all calls.
fn put_answer(alloc: Global, out: &mut String) -> Result<(), AllocError> {
    let mut walk = Walk::new(alloc)?;
    walk.put(STEPS, out)
}

/// What comes of all calls.
fn answer(alloc: Global) -> Result<String, AllocError> {
    let mut out = String::new(alloc);
    put_answer(alloc, &mut out)?;
    Ok(out)
}

fn main(rt: HostRuntime) -> io::Result<()> {
    let out = answer(rt.alloc())?;
    print!(rt; "{out}")
}
