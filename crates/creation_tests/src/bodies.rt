// Bodies of Emails.
use email_bodies::{BodyError, BodySource, MessagePlace};
use octets::Bytes;
use std::alloc::{AllocError, Global};

/// The bodies that come, by the numbers of their Emails, and the Emails of which one was asked.
#[derive(Drop)]
pub(crate) struct Bodies {
    given: Vec<(u64, Bytes)>,
    asked: Vec<u64>,
}

impl Bodies {
    pub(crate) fn new(alloc: Global) -> Bodies {
        Bodies {
            given: Vec::new(alloc),
            asked: Vec::new(alloc),
        }
    }

    pub(crate) fn give(&mut self, email: u64, body: Bytes) -> Result<(), AllocError> {
        self.given.push((email, body))?;
        Ok(())
    }

    fn note(&mut self, email: u64) -> Result<(), AllocError> {
        self.asked.push(email)?;
        Ok(())
    }

    /// Adds which were asked, and forgets it.
    pub(crate) fn put_asked(&mut self, out: &mut String) -> Result<(), AllocError> {
        for email in self.asked.iter() {
            write!(out, "asks e{email}; ")?;
        }
        self.asked.clear();
        Ok(())
    }
}

impl BodySource<()> for Bodies {
    ghost answers = { λ _ _ _ _. Unit {0} };

    ghost lacks = { λ _ _ _. Unit {0} };

    fn body(&mut self, _world: &mut (), message: MessagePlace) -> Result<Bytes, BodyError> {
        self.note(message.email)?;
        for (email, body) in self.given.iter() {
            if *email == message.email {
                return Ok(body.share()?);
            }
        }
        Err(BodyError::Ended)
    }
}
