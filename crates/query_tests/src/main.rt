//! What queries are made of: reads rows from standard input, Emails, Mailboxes, conditions, orders, lists and arguments, and prints
//! which Emails each condition takes, how an order puts them, which part of a list is asked, and what arguments ask. The legend
//! stands at the top of the file `stdin`, and what has to come of its rows in the file `stdout`.
#![tactic(auto)]

// Emails and Mailboxes of lines.
mod mail;

// What is asked of them, of texts, of lists and of arguments.
mod arguments;
mod emails;
mod mailboxes;
mod orders;
mod windows;

use mail_maps::{EmailRow, MailboxRow};
use query_conditions::has_word;
use std::alloc::{AllocError, Global};
use std::io;
use test_rows::{TestRows, answer_rows, first_word};

/// Adds whether the word stands in the text, which are parted by `|`.
fn put_found(line: &str, out: &mut String) -> Result<(), AllocError> {
    let (word, text) = line.split_once('|').unwrap_or((line, ""));
    match has_word(word.as_bytes(), text.as_bytes()) {
        true => out.push_str(" yes"),
        false => out.push_str(" no"),
    }
}

/// The Emails and Mailboxes of the rows so far.
#[derive(Drop)]
struct Rows {
    emails: Vec<EmailRow>,
    mailboxes: Vec<MailboxRow>,
    alloc: Global,
}

impl Rows {
    /// Adds which Emails or Mailboxes a condition takes.
    fn put_taken(&self, name: &str, argument: &str, out: &mut String) -> Result<(), AllocError> {
        match name {
            "mailboxes" => mailboxes::put_taken(self.alloc, &self.mailboxes, argument, out),
            _ => emails::put_taken(self.alloc, &self.emails, name, argument, out),
        }
    }

    /// Adds what is asked, and the answer.
    fn answer(&self, line: &str, out: &mut String) -> Result<(), AllocError> {
        let (name, argument) = first_word(line);
        write!(out, "{line} ->")?;
        match name {
            "word" => put_found(argument, out)?,
            "position" => windows::put_by_position(self.alloc, argument, out)?,
            "anchor" => windows::put_by_anchor(self.alloc, argument, out)?,
            "windows" => windows::put_sweep(self.alloc, argument, out)?,
            "order" => orders::put_emails(self.alloc, &self.emails, argument, out)?,
            "mailbox-order" => orders::put_mailboxes(self.alloc, &self.mailboxes, argument, out)?,
            "groups" => windows::put_groups(self.alloc, argument, out)?,
            "Email/query" | "Mailbox/query" | "Email/queryChanges" | "Mailbox/queryChanges" => {
                arguments::put_asked(self.alloc, name, argument, out)?
            }
            _ => self.put_taken(name, argument, out)?,
        }
        out.push('\n')
    }
}

impl TestRows for Rows {
    fn begin(&mut self) -> Result<(), AllocError> {
        Ok(())
    }

    fn take(&mut self, line: &str, out: &mut String) -> Result<(), AllocError> {
        let (word, rest) = first_word(line);
        match word {
            "email" => {
                self.emails.push(mail::email_of(self.alloc, rest)?)?;
                Ok(())
            }
            "mailbox" => {
                self.mailboxes.push(mail::mailbox_of(self.alloc, rest)?)?;
                Ok(())
            }
            _ => self.answer(line, out),
        }
    }
}

fn main(rt: HostRuntime) -> io::Result<()> {
    let mut rows = Rows {
        emails: Vec::new(rt.alloc()),
        mailboxes: Vec::new(rt.alloc()),
        alloc: rt.alloc(),
    };
    answer_rows(&rt, &mut rows)
}
