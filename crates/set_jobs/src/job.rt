// What an item is to do.

use crate::{Done, Step};
use octets::Listed;

/// The steps of an item that passes its checks, and what it comes to once all are done.
#[derive(Debug, Drop)]
pub struct Job {
    pub steps: Listed<Step>,
    pub done: Done,
}
