// Emails with their numbers.

use mail_maps::EmailRow;

/// An Email with its number.
#[derive(Clone, Copy, Debug)]
pub struct EmailEntry<'a> {
    /// Its number among Emails.
    pub number: u64,
    /// Its row.
    pub row: &'a EmailRow,
}
