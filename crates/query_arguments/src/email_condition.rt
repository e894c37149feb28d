// Conditions of Emails.

use octets::{Bytes, Names};
use query_conditions::{Quantity, RecordCondition};

/// A condition of Emails (RFC 8621 section 4.4.1).
#[derive(Debug, Drop)]
pub enum EmailCondition {
    /// Its own row decides.
    Record(RecordCondition),
    /// `header`: the name of a field, and words that all stand in the text of one such field where a text is searched for.
    Header(Bytes, Option<Names>),
    /// So many Emails of its Thread have the keyword, which is in lower case.
    Thread(Quantity, Bytes),
}
