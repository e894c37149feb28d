// Emails as conditions test them.
ghost use Rattle.std.specs.Prelude.{◌↔◌, IsTrue};
ghost use Rattle.query_conditions.specs.Entries.{email_at, emails_at};
ghost use Rattle.query_conditions.specs.ThreadKeywords.{ThreadMatches};
ghost use Rattle.query_core.specs.reading.Found.{HasThreads};

use crate::filter_walk::Tested;
use crate::header_condition::header_matches;
use crate::keyword_threads::{FoundThreads, threads_found};
use query_arguments::EmailCondition;
use query_conditions::{EmailEntry, Quantity, record_matches, thread_matches};
use std::alloc::{AllocError, Global};

/// An Email, all Emails, of which its Thread's are some, and what was found of their Threads.
#[derive(Clone, Copy)]
pub(crate) struct TestedEmail<'a> {
    pub(crate) alloc: Global,
    pub(crate) emails: &'a [EmailEntry<'a>],
    pub(crate) found: &'a FoundThreads,
    pub(crate) email: EmailEntry<'a>,
}

/// Whether so many Emails of its Thread have the keyword.
fn thread_holds(tested: &TestedEmail<'_>, quantity: Quantity, keyword: &[u8]) -> bool
    ensures { HasThreads (emails_at tested.now.emails.now) tested.now.found.now keyword.now → IsTrue result
        ↔ ThreadMatches (emails_at tested.now.emails.now) quantity keyword.now (email_at tested.now.email).immutable.thread }
{
    match threads_found(tested.found, keyword) {
        Some(threads) => thread_matches(threads, quantity, tested.email.row.thread),
        None => false,
    }
}

impl<'a> Tested<EmailCondition> for TestedEmail<'a> {
    ghost use Rattle.query_conditions.specs.Entries.{email_at, emails_at};
    ghost use Rattle.query_core.specs.Lists.{EmailMatches};
    ghost use Rattle.query_core.specs.reading.Found.{KnowsThreads};

    ghost Knows = { λ t c. KnowsThreads (emails_at t.emails.now) t.found.now c };

    ghost Holds = { λ t c. EmailMatches (emails_at t.emails.now) (email_at t.email) c };

    fn holds(&self, condition: &EmailCondition) -> Result<bool, AllocError> {
        match condition {
            EmailCondition::Record(condition) => Ok(record_matches(self.email.row, condition)),
            EmailCondition::Header(name, words) => {
                let header = self.email.row.header.as_slice();
                header_matches(self.alloc, header, name.as_slice(), words)
            }
            EmailCondition::Thread(quantity, keyword) => {
                Ok(thread_holds(self, *quantity, keyword.as_slice()))
            }
        }
    }
}
