//! The calls of a request: whether they need the mail, and what each is answered over the mail that is served at its moment.
#![tactic(auto)]

// Methods, and what answers them.
mod method;
mod methods;
mod no_mail;
mod request_mail;
mod source;

// Calls, one after another.
mod calls;
mod needs;

// Laws.
mod laws;

pub use calls::responses_to;
pub use laws::{calls_have_one_course, orders_offered_are_taken, reading_calls_have_one_mail};
pub use method::{Method, method_named, name_needs_mail};
pub use needs::needs_mail;
pub use no_mail::NoMail;
pub use request_mail::{RequestMail, error_of};
pub use source::CallSource;
