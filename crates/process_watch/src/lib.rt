//! How long work takes this process, and what memory the process has, as the system tells it. For programs that measure.
#![tactic(auto)]

mod process;
mod watch;

pub use process::resident;
pub use watch::Watch;
