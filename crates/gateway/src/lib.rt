//! The gateway: the top call, a message that is shown, a store that is checked, and pages of help.
#![tactic(auto)]

// A message shown, a store checked, and pages of help.
mod check;
mod explain;
mod show;

// The top call, and what clients are owed by it.
mod laws;
mod program;

pub use gate_words::{Page, Place, Task, WordsError, read_words};
pub use laws::{
    obeyed_programs_tell, programs_append_once, programs_check_by_reading, quiet_programs_tell,
};
pub use program::{run, run_read};
