//! The words of a command, and what they ask for.
#![tactic(auto)]

// What words ask for.
mod page;
mod place;
mod task;

// Options and values, by the rule.
mod connections;
mod option;
mod rules;
mod settings;

// What clap finds.
mod commands;
mod found;

// Reading.
mod reading;

pub use connections::MAX_CONNECTIONS;
pub use page::{
    CHECK_PAGE, ONCE_PAGE, PROGRAM_PAGE, Page, SERVE_PAGE, SHOW_PAGE, STORE_PAGE, VERSION_PAGE,
};
pub use place::Place;
pub use reading::{one_task, read_words};
pub use task::{Task, WordsError};
