// What stores and clients give, as it is written down.
use crate::cut_world::CutWorld;
use scripted_world::{Script, ScriptWorld};
use std::alloc::{AllocError, Global};
use std::mem;
use test_rows::{first_number, first_word, octets_of};

/// Names of texts, and a script.
#[derive(Drop)]
pub(crate) struct Written {
    /// What stands for which text.
    names: Vec<(String, String)>,
    /// What is written down of a link life or a client that isn't whole yet.
    octets: Vec<u8>,
    links: Vec<Vec<u8>>,
    clients: Vec<Vec<u8>>,
    token: Vec<u8>,
    /// The most octets that one read gives.
    piece: usize,
    /// The call that fails, and the one from which on every call fails (0: none).
    failing: u64,
    stopping: u64,
    /// How many octets are cut from the end of the first link life.
    cut: usize,
    /// The most octets that the store takes in it.
    taking: usize,
    alloc: Global,
}

impl Written {
    pub(crate) fn new(alloc: Global) -> Written {
        Written {
            names: Vec::new(alloc),
            octets: Vec::new(alloc),
            links: Vec::new(alloc),
            clients: Vec::new(alloc),
            token: Vec::new(alloc),
            piece: usize::MAX,
            failing: 0,
            stopping: 0,
            cut: 0,
            taking: usize::MAX,
            alloc,
        }
    }

    /// Forgets the script, but for the token.
    pub(crate) fn clear(&mut self) {
        self.octets.clear();
        self.links.clear();
        self.clients.clear();
        self.piece = usize::MAX;
        self.failing = 0;
        self.stopping = 0;
        self.cut = 0;
        self.taking = usize::MAX;
    }

    /// The text, with what each name in it stands for.
    pub(crate) fn spelled(&self, text: &str) -> Result<String, AllocError> {
        let mut spelled = String::from_str(self.alloc, text)?;
        for (name, meant) in self.names.iter() {
            spelled = spelled.replace(self.alloc, name, meant)?;
        }
        Ok(spelled)
    }

    fn put_name(&mut self, text: &str) -> Result<(), AllocError> {
        let (name, meant) = first_word(text);
        let name = String::from_str(self.alloc, name)?;
        let meant = String::from_str(self.alloc, meant)?;
        self.names.push((name, meant))?;
        Ok(())
    }

    /// Adds the text this often.
    fn put(&mut self, count: u64, text: &str) -> Result<(), AllocError> {
        let count = usize::try_from(count).unwrap_or(0);
        let octets = octets_of(self.alloc, text)?;
        let octets = octets.repeat(self.alloc, count)?;
        self.octets.extend_from_slice(&octets)?;
        Ok(())
    }

    /// Adds the text with these numbers in place of each `%i` and `%j`.
    fn put_numbered(&mut self, i: u64, j: u64, text: &str) -> Result<(), AllocError> {
        let i = format!(in self.alloc; "{i}")?;
        let j = format!(in self.alloc; "{j}")?;
        let text = text.replace(self.alloc, "%i", &i)?;
        self.put(1, &text.replace(self.alloc, "%j", &j)?)
    }

    /// Adds the text for each number from one to another.
    fn repeat(&mut self, text: &str) -> Result<(), AllocError> {
        let (first, text) = first_number(text);
        let (last, text) = first_number(text);
        for place in 0..=last.saturating_sub(first) {
            let (i, j) = (place.saturating_add(1), first.saturating_add(place));
            self.put_numbered(i, j, text)?;
        }
        Ok(())
    }

    /// What is written down and this text are a link life, a client, or the token.
    fn end(&mut self, word: &str, text: &str) -> Result<(), AllocError> {
        self.put(1, text)?;
        let octets = mem::replace(&mut self.octets, Vec::new(self.alloc));
        match word {
            "link" => self.links.push(octets)?,
            "client" => self.clients.push(octets)?,
            _ => self.token = octets,
        }
        Ok(())
    }

    /// Sets a number, where there is one of this kind.
    pub(crate) fn set(&mut self, kind: &str, number: u64) -> bool {
        let size = usize::try_from(number).unwrap_or(0);
        match kind {
            "piece" => self.piece = size,
            "cut" => self.cut = size,
            "taking" => self.taking = size,
            "failing" => self.failing = number,
            "stopping" => self.stopping = number,
            _ => return false,
        }
        true
    }

    /// Does what a line says of a script, where it says something of one.
    pub(crate) fn take(&mut self, word: &str, text: &str) -> Result<bool, AllocError> {
        let (count, rest) = first_number(text);
        match word {
            "text" => self.put_name(text)?,
            "part" => self.put(1, text)?,
            "times" => self.put(count, rest)?,
            "repeat" => self.repeat(text)?,
            "link" | "client" | "token" => self.end(word, text)?,
            _ => return Ok(self.set(word, count)),
        }
        Ok(true)
    }

    fn plain(&self) -> Result<Script, AllocError> {
        let script = Script::new(self.alloc)?.with_word(31)?;
        let script = script
            .with_secrets(b"pw", &self.token)?
            .failing(self.failing)?;
        Ok(script.in_pieces(self.piece).stopping_at(self.stopping))
    }

    fn linked(&self) -> Result<Script, AllocError> {
        let mut script = self.plain()?;
        let mut cut = self.cut;
        for link in self.links.iter() {
            let (kept, _) = link.split_at(link.len().saturating_sub(cut));
            script = script.with_link(kept)?;
            cut = 0;
        }
        Ok(script)
    }

    /// A world that follows the script.
    pub(crate) fn world(&self) -> Result<CutWorld, AllocError> {
        let mut script = self.linked()?;
        for client in self.clients.iter() {
            script = script.with_client(client)?;
        }
        let world = ScriptWorld::new(self.alloc, script);
        Ok(CutWorld::new(world, self.taking))
    }
}
