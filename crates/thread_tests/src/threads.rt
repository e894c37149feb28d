// Threads of Emails as they arrive.
use std::alloc::{AllocError, Global};
use test_rows::{first_number, first_word};
use thread_rule::{Ids, Named, ThreadBook, base_subject, push_id};

/// So many ids, of eight octets each.
fn numbered(alloc: Global, count: u64) -> Result<Ids, AllocError> {
    let mut text = Vec::new(alloc);
    for id in 0..count {
        push_id(&mut text, format!(in alloc; "{id:08}")?.as_bytes())?;
    }
    Ids::of(alloc, text.as_slice())
}

/// The ids between commas, each in angle brackets; `-` stands for none, and `#` and a number for so many.
fn ids_of(alloc: Global, ids: &str) -> Result<Ids, AllocError> {
    if let Some(count) = ids.strip_prefix('#') {
        return numbered(alloc, first_number(count).0);
    }
    let mut text = Vec::new(alloc);
    for id in ids.split(',') {
        if let Some(id) = id.strip_prefix('<') {
            push_id(&mut text, id.strip_suffix('>').unwrap_or(id).as_bytes())?;
        }
    }
    Ids::of(alloc, text.as_slice())
}

/// The Email of a number, ids and a Subject, in which its number stands for `%n`.
fn named_of(alloc: Global, email: u64, text: &str) -> Result<Named, AllocError> {
    let (ids, subject) = first_word(text);
    let number = format!(in alloc; "{email}")?;
    let subject = subject.replace(alloc, "%n", &number)?;
    Ok(Named {
        email,
        ids: ids_of(alloc, ids)?,
        base: base_subject(alloc, subject.as_bytes())?,
    })
}

/// What the books go by: any number will do.
const SECRET: u64 = 7;

/// The Thread of an Email that arrives; none where it is there already.
fn arrive(
    alloc: Global,
    book: &mut ThreadBook,
    email: u64,
    text: &str,
) -> Result<Option<u64>, AllocError> {
    let new = named_of(alloc, email, text)?;
    if book.contains(new.email) {
        return Ok(None);
    }
    let thread = book.join(new)?;
    Ok(Some(thread))
}

fn put_thread(email: u64, thread: Option<u64>, out: &mut String) -> Result<(), AllocError> {
    match thread {
        None => out.push_str(" -> there already"),
        Some(thread) if thread == email => out.push_str(" -> its own"),
        Some(thread) => write!(out, " -> {thread}"),
    }
}

/// Emails in their Threads, and mail that arrives in one order and another.
#[derive(Drop)]
pub(crate) struct Threads {
    book: ThreadBook,
    mail: Vec<String>,
    alloc: Global,
}

impl Threads {
    pub(crate) fn new(alloc: Global) -> Threads {
        Threads {
            book: ThreadBook::new(alloc, SECRET),
            mail: Vec::new(alloc),
            alloc,
        }
    }

    /// Takes Emails in, and adds the Thread of each but where that is told already.
    fn arrive(
        &mut self,
        first: u64,
        last: u64,
        text: &str,
        out: &mut String,
    ) -> Result<(), AllocError> {
        let mut told = None;
        for email in first..=last {
            let thread = arrive(self.alloc, &mut self.book, email, text)?;
            let tells = Some((thread != Some(email)).then_some(thread));
            if tells != told {
                put_thread(email, thread, out)?;
            }
            told = tells;
        }
        Ok(())
    }

    /// Whether the mail that is kept comes into the Thread of the first in this order of arrival.
    fn is_one_thread(&self, order: &str) -> Result<bool, AllocError> {
        let mut book = ThreadBook::new(self.alloc, SECRET);
        let mut one = true;
        for (place, letter) in order.as_bytes().iter().enumerate() {
            one &= match self.mail.get(letter.wrapping_sub(b'a') as usize) {
                Some(text) => arrive(self.alloc, &mut book, place as u64, text.as_str())?
                    == Some(0),
                None => false,
            };
        }
        Ok(one)
    }

    /// Adds in how many orders of arrival there is one Thread, and in how many there is not.
    fn put_orders(&self, orders: &str, out: &mut String) -> Result<(), AllocError> {
        let mut counts = [0u64; 2];
        for order in orders.split_whitespace() {
            let count = &mut counts[usize::from(self.is_one_thread(order)?)];
            *count = count.saturating_add(1);
        }
        write!(
            out,
            " -> one Thread in {}, more in {}",
            counts[1], counts[0]
        )
    }

    /// Does what a word says, and adds what comes of it.
    pub(crate) fn take(
        &mut self,
        word: &str,
        text: &str,
        out: &mut String,
    ) -> Result<(), AllocError> {
        let (emails, rest) = first_word(text);
        let (first, last) = emails.split_once('-').unwrap_or((emails, emails));
        let (first, last) = (first_number(first).0, first_number(last).0);
        match word {
            "arrive" => self.arrive(first, last, rest, out),
            "find" => {
                let thread = arrive(self.alloc, &mut self.book, first, rest)?;
                self.book.forget(first);
                put_thread(first, thread, out)
            }
            "forget" => {
                for email in first..=last {
                    self.book.forget(email);
                }
                Ok(())
            }
            "contains" => write!(out, " -> {}", self.book.contains(first)),
            "mail" => {
                self.mail.push(String::from_str(self.alloc, text)?)?;
                Ok(())
            }
            _ => self.put_orders(text, out),
        }
    }
}
