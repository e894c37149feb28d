//! The lists of ids that queries answer, without what the ids stand for: which list it is, the first row of each group, the part
//! that is asked, and what a client does to a list that it has.
#![tactic(auto)]

mod filter;
mod groups;
mod window;

// Laws.
pub mod laws;

pub use filter::FilterOperator;
pub use groups::{GroupedRow, first_of_each};
pub use window::{Window, WindowAsked, WindowStart, window_of};
