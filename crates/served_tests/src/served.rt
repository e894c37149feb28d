// A state that follows the mail that is told.
use crate::shown::{put_envelope, put_rows, put_touches};
use mail_maps::EmailRow;
use mail_state::{MailState, MailType};
use std::alloc::{AllocError, Global};
use told_mail::Mirror;

/// The places of Mailboxes, Emails and Threads.
type Places = (u64, u64, u64);

/// The state, and its places before its last step.
#[derive(Drop)]
pub(crate) struct Served {
    /// None where a step was refused.
    pub state: Option<MailState>,
    /// Whether in each step just those types moved whose place rose.
    pub is_right: bool,
    from: Places,
}

pub(crate) fn places(state: &MailState) -> Places {
    (
        state.list(MailType::Mailbox).place(),
        state.list(MailType::Email).place(),
        state.list(MailType::Thread).place(),
    )
}

/// Adds the octets, the time, how many keywords an Email has, and what is kept and read of its header, as it was told last.
fn put_email(out: &mut String, row: &EmailRow, told: &[u8]) -> Result<(), AllocError> {
    let kept = row.header.as_slice();
    let begin = told.iter().position(|octet| *octet == b'\n').unwrap_or(0);
    let is_front = told
        .get(begin.saturating_add(1)..)
        .unwrap_or(&[])
        .starts_with(kept);
    let (size, received, keywords) = (row.size, row.received, row.keywords.len());
    write!(
        out,
        "{size} {received} {keywords} {} {is_front} ",
        kept.len()
    )?;
    put_envelope(out, &row.envelope)
}

/// Adds how many Emails each Thread has.
fn put_sizes(state: &MailState, out: &mut String) -> Result<(), AllocError> {
    for number in &state.numbers(MailType::Thread)? {
        let size = state.thread(*number).map_or(0, |emails| emails.len());
        write!(out, "t{number}: {size};")?;
    }
    Ok(())
}

/// Adds what the user may do in each Mailbox, and whether it is subscribed.
fn put_rights(state: &MailState, out: &mut String) -> Result<(), AllocError> {
    for number in &state.numbers(MailType::Mailbox)? {
        if let Some(row) = state.mailbox(*number) {
            let (rights, subscribed) = (row.rights, row.subscribed);
            write!(out, "m{number} {subscribed} {rights:?}; ")?;
        }
    }
    Ok(())
}

impl Served {
    /// A state without mail.
    pub(crate) fn new(alloc: Global, epoch: u64) -> Result<Served, AllocError> {
        Ok(Served {
            state: Some(MailState::new(alloc, epoch)?),
            is_right: true,
            from: (0, 0, 0),
        })
    }

    /// Goes on to the mail.
    pub(crate) fn follow(&mut self, mirror: &Mirror) {
        let Some(state) = self.state.take() else {
            return;
        };
        let before = places(&state);
        let Ok((state, moved)) = state.apply(mirror) else {
            return;
        };
        let after = places(&state);
        let rose = (before.0 < after.0, before.1 < after.1, before.2 < after.2);
        let is_right = (moved.mailbox, moved.email, moved.thread) == rose;
        self.is_right = self.is_right && is_right;
        self.from = before;
        self.state = Some(state);
    }

    /// Adds the epoch, what changed in the last step, and all that is served.
    fn put_step(&self, state: &MailState, out: &mut String) -> Result<(), AllocError> {
        let (mailboxes, emails, threads) = self.from;
        write!(out, "{}:", state.epoch())?;
        let list = state.list(MailType::Mailbox);
        put_touches(out, ["m-", "m~", "m#", "m+"], list, mailboxes)?;
        let list = state.list(MailType::Email);
        put_touches(out, ["e-", "e~", "e#", "e+"], list, emails)?;
        let list = state.list(MailType::Thread);
        put_touches(out, ["t-", "t~", "t#", "t+"], list, threads)?;
        out.push('\n')?;
        for kind in [MailType::Email, MailType::Mailbox, MailType::Thread] {
            put_rows(out, state, kind, true)?;
        }
        Ok(())
    }

    /// Adds what the word asks of the state. The last octets that were told are these.
    pub(crate) fn show(&self, word: &str, told: &[u8], out: &mut String) -> Result<(), AllocError> {
        match &self.state {
            Some(state) if word == "step" => self.put_step(state, out),
            Some(state) if word == "sizes" => put_sizes(state, out),
            Some(state) if word == "rights" => put_rights(state, out),
            Some(state) => match state.email(1) {
                Some(row) => put_email(out, row, told),
                None => out.push_str("no Email"),
            },
            None => out.push_str("no state"),
        }
    }
}
