//! Reads the commands of `Command` as a store gets them (RFC 9051 section 6, RFC 7162 section 3.2). Every other text is no command.
#![tactic(auto)]

// Commands.
mod command_read;
mod folder_arguments;
mod message_arguments;
mod request;

// What holds of them.
mod laws;

pub use command_read::{CommandRead, read_command};
pub use laws::{answer_stays, one_answer, piece_wants_literal, read_may_be_asked, written_is_read};
