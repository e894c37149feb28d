//! A call that changes mail, in what is left of its request's link life: its items, and then one commit (RFC 8620 sections 3.6.2 and 5.3).
#![tactic(auto)]

mod answering;
mod changing;
mod importing;
mod laws;

pub use answering::{Answered, answer_change};
pub use changing::{CallChecks, Changed, change_mail};
pub use laws::{
    broken_calls_hang_up, changes_begin_over_mail, changes_blame_the_link,
    changes_come_of_exchanges, changes_draw_no_epoch, changes_keep_bodies, changes_keep_history,
    changes_tell_served_folders,
};
