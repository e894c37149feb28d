//! One exchange with an IMAP store (RFC 9051 section 2.2): responses in any pieces, a command's pieces each after its
//! continuation, and what the octets say of the exchange.
#![tactic(auto)]

// Octets and ends of a link life.
mod link_end;
mod received;

// Responses and commands.
mod exchange;
mod response;
mod sending;
mod turn;

// Laws.
mod laws;

pub use exchange::complete;
pub use laws::{
    all_due_is_taken_before_reading, each_piece_is_due, no_end_after_an_answer,
    nothing_is_read_once_decided, one_verdict, statuses_of_answers, too_much_ends_so,
};
pub use link_end::{LinkEnd, MAX_EXCHANGE_OCTETS, MAX_LIFE_OCTETS};
pub use received::Received;
pub use response::next_response;
pub use sending::hang_up_where;
