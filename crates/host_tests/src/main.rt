//! The outside on a real host: reads rows from standard input, each a scenario of clients and a store, over loopback or of this
//! program's own, and prints what comes of each step. The legend stands at the top of the file `stdin`, and what has to come of
//! its rows in the file `stdout`.
#![tactic(auto)]

mod desk;
mod peers;
mod scenes;
mod scripted;
mod steps;

use std::io;
use test_rows::first_word;

/// Does what a line says, and adds what comes of it.
fn take(rt: HostRuntime, line: &str, out: &mut String) -> io::Result<()> {
    let (scene, steps) = line.split_once(" -> ").unwrap_or((line, ""));
    let (word, row) = first_word(scene);
    let text = match word {
        "" | "#" => return Ok(()),
        "scripted" => scenes::scripted(rt, row, steps)?,
        "loopback" => scenes::loopback(rt, row, steps)?,
        "sessions" => scenes::sessions(rt, row, steps)?,
        "standard" => scenes::standard(rt, row, steps)?,
        _ => String::new(rt.alloc()),
    };
    Ok(writeln!(out, "{scene}{text}")?)
}

fn main(rt: HostRuntime) -> io::Result<()> {
    let lines = io::read_to_string(rt.alloc(), rt.reader())?;
    let mut out = String::new(rt.alloc());
    for line in lines.lines() {
        take(rt, line, &mut out)?;
    }
    print!(rt; "{out}")
}
