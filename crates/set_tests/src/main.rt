//! Items of calls that change mail: reads rows from standard input, jobs and what a store answers, and prints what comes of them. The
//! legend stands at the top of the file `stdin`, and what has to come of its rows in the file `stdout`.
#![tactic(auto)]

// The store.
mod cut_link;

// Jobs.
mod steps;

// Items, and the link that is cut.
mod cuts;
mod playing;
mod rows;

use rows::Rows;
use std::io;
use test_rows::answer_rows;

fn main(rt: HostRuntime) -> io::Result<()> {
    answer_rows(&rt, &mut Rows::new(rt.alloc()))
}
