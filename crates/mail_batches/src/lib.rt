//! Batches of changes of the mail: how they are spelled, and to which mail they lead.
#![tactic(auto)]

// Items, and how they are spelled.
mod batches;
mod item;
mod placed;
mod reading;
mod version;
mod write;

// What items make of the tables of mail.
mod batch_reading;
mod mail_tables;
mod rules;

// The batch from one mail to another.
mod encode;
mod mail_differences;

// Laws.
pub mod laws;

pub use batch_reading::{BatchError, read_items};
pub use batches::first_batch;
pub use encode::encode_batch;
pub use item::Item;
pub use mail_tables::MailTables;
pub use placed::Placed;
pub use version::VERSION;
