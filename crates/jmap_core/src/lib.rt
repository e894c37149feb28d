//! JMAP requests and responses (RFC 8620): what a body asks, the Session, and the texts of answers.
#![tactic(auto)]

// Requests.
mod created_ids;
mod request;
mod request_body;

// Answers.
mod problem;
mod response;
mod session;

pub use created_ids::CreatedIds;
pub use problem::problem_text;
pub use request::{LimitName, Request, RequestError};
pub use request_body::{MAX_CALLS_IN_REQUEST, read_request};
pub use response::{response_text, response_value};
pub use session::{MAX_SIZE_REQUEST, MAX_SIZE_UPLOAD, session_object, session_state};
