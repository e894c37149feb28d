//! What a request's method and target ask for, and whether its token is the gateway's.
#![tactic(auto)]

// Paths and their parts.
mod accept;
mod cutting;
mod parts;
mod router;

// Routes and tokens.
mod request;
mod route;
mod token;

// Laws.
pub mod laws;

pub use request::RouteRequest;
pub use route::Route;
pub use router::{Kind, Routes};
pub use token::is_token;
