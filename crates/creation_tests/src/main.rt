//! Emails that are to be created or imported: reads rows from standard input, what a store tells, uploads, bodies and properties, and
//! prints what each creation or import comes to. The legend stands at the top of the file `stdin`, and what has to come of its rows in the file `stdout`.
#![tactic(auto)]

// The mail, its bodies, and what is named.
mod bodies;
mod call;

// What comes of a creation.
mod printed;

// Rows.
mod rows;

use rows::Rows;
use std::io;
use test_rows::answer_rows;

fn main(rt: HostRuntime) -> io::Result<()> {
    let mut rows = Rows::new(rt.alloc())?;
    answer_rows(&rt, &mut rows)
}
