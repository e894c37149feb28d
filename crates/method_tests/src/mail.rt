// The mail that exchanges tell, and that is served.
use crate::methods::put_called;
use mail_state::MailState;
use std::alloc::{AllocError, Global};
use std::mem;
use test_rows::octets_of;
use told_dialogues::exchange_of;
use told_mail::Mirror;

/// The epoch of each state.
const EPOCH: u64 = 31;

/// The folder that is selected before another one is.
const FIRST: &str = "INBOX";

/// The mail that is told, and what of it is served.
#[derive(Drop)]
pub(crate) struct Mail {
    mirror: Mirror,
    /// The folder that was selected last.
    selected: String,
    state: MailState,
    alloc: Global,
}

impl Mail {
    pub(crate) fn new(alloc: Global) -> Result<Mail, AllocError> {
        Ok(Mail {
            mirror: Mirror::new(alloc),
            selected: String::from_str(alloc, FIRST)?,
            state: MailState::new(alloc, EPOCH)?,
            alloc,
        })
    }

    /// Forgets all mail.
    pub(crate) fn clear(&mut self) -> Result<(), AllocError> {
        self.state = MailState::new(self.alloc, EPOCH)?;
        self.mirror = Mirror::new(self.alloc);
        self.selected = String::from_str(self.alloc, FIRST)?;
        Ok(())
    }

    /// Tells the exchange of a command; the command and what the store sends are parted by `|`.
    pub(crate) fn tell(&mut self, text: &str, out: &mut String) -> Result<(), AllocError> {
        let (asked, sent) = text.split_once('|').unwrap_or((text, ""));
        let mut octets = octets_of(self.alloc, sent)?;
        octets.extend_from_slice(b"a1 OK done\r\n")?;
        let selected = self.selected.as_bytes();
        let Some(exchange) = exchange_of(self.alloc, asked, selected, &octets)? else {
            return out.push_str("no exchange\n");
        };
        if let Some(name) = asked.strip_prefix("select ") {
            self.selected = String::from_str(self.alloc, name)?;
        }
        match self.mirror.tell(&exchange) {
            Ok(()) => Ok(()),
            Err(error) => writeln!(out, "not told: {error:?}"),
        }
    }

    /// Serves what was told.
    pub(crate) fn serve(&mut self, out: &mut String) -> Result<(), AllocError> {
        let fresh = MailState::new(self.alloc, EPOCH)?;
        let state = mem::replace(&mut self.state, fresh);
        match state.apply(&self.mirror) {
            Ok((next, _)) => {
                self.state = next;
                Ok(())
            }
            Err(error) => writeln!(out, "not served: {error}"),
        }
    }

    /// Adds what a method answers over what is served.
    pub(crate) fn ask(&self, text: &str, out: &mut String) -> Result<(), AllocError> {
        put_called(self.alloc, &self.state, text, out)
    }
}
