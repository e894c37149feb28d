// Texts by their names, of which rows are made, and texts that are printed.
use std::alloc::{AllocError, Global};
use std::collections::BTreeMap;
use test_rows::{first_number, first_word, put_octets};

/// The most octets of a text that is printed whole.
const MOST: usize = 2000;

/// How many octets of a longer text are printed at its front, and at its end.
const EDGE: usize = 60;

/// Adds the text, or the front and the end of one that is long.
pub(crate) fn put_text(out: &mut String, text: &str) -> Result<(), AllocError> {
    let octets = text.as_bytes();
    if octets.len() <= MOST {
        return out.push_str(text);
    }
    let (front, rest) = octets.split_at(EDGE);
    let (between, end) = rest.split_at(rest.len() - EDGE);
    put_octets(out, front)?;
    write!(out, " .. {} octets .. ", between.len())?;
    put_octets(out, end)
}

/// Texts by their names.
#[derive(Drop)]
pub(crate) struct Texts {
    texts: BTreeMap<String, String>,
    alloc: Global,
}

impl Texts {
    pub(crate) fn new(alloc: Global) -> Texts {
        Texts {
            texts: BTreeMap::new(alloc),
            alloc,
        }
    }

    fn named(&self, name: &str) -> &str {
        match self.texts.get(name) {
            Some(text) => text.as_str(),
            None => "",
        }
    }

    fn insert(&mut self, name: &str, text: String) -> Result<(), AllocError> {
        let name = String::from_str(self.alloc, name)?;
        self.texts.insert(name, text)?;
        Ok(())
    }

    /// The line with the text of this name in place of each `$NAME$`.
    pub(crate) fn filled(&self, line: &str) -> Result<String, AllocError> {
        let mut filled = String::new(self.alloc);
        let mut is_name = false;
        for piece in line.split('$') {
            filled.push_str(if is_name { self.named(piece) } else { piece })?;
            is_name = !is_name;
        }
        Ok(filled)
    }

    /// Gives a name its text.
    pub(crate) fn put(&mut self, line: &str) -> Result<(), AllocError> {
        let (name, text) = first_word(line);
        let text = String::from_str(self.alloc, text)?;
        self.insert(name, text)
    }

    /// Adds to the text of a name a text for each number from one to another, in which the number stands for `%n`.
    pub(crate) fn repeat(&mut self, line: &str) -> Result<(), AllocError> {
        let (name, line) = first_word(line);
        let (first, line) = first_number(line);
        let (last, text) = first_number(line);
        let mut whole = String::from_str(self.alloc, self.named(name))?;
        for number in first..=last {
            let digits = format!(in self.alloc; "{number}")?;
            let text = text.replace(self.alloc, "%n", &digits)?;
            whole.push_str(&text)?;
        }
        self.insert(name, whole)
    }
}
