//! What the definitions promise of the APPENDs of calls that change mail, as clauses of functions that do nothing.
#![tactic(auto)]

mod laws;

pub use laws::{clients_append_once, only_items_change_mail, runs_append_once};
