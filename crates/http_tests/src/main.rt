//! HTTP at the gateway's edge: reads rows from standard input, octets of clients and what is sent to them, and prints what comes
//! of them. The legend stands at the top of the file `stdin`, and what has to come of its rows in the file `stdout`.
#![tactic(auto)]

// Octets as text.
mod written;

// What comes of clients.
mod clients;
mod readings;

// What is asked, sent and kept.
mod responses;
mod routes;
mod uploads;

use readings::Setting;
use std::alloc::AllocError;
use std::io;
use test_rows::{TestRows, answer_rows, first_word};
use uploads::Uploads;

/// What the rows so far have left.
#[derive(Drop)]
struct Rows {
    setting: Setting,
    uploads: Uploads,
}

impl Rows {
    /// Adds what comes of a text that no setting changes, or of octets that are read as the words say.
    fn put_text(&self, words: &str, text: &str, out: &mut String) -> Result<(), AllocError> {
        let alloc = self.setting.alloc;
        match words {
            "route" => routes::put_route(alloc, text, out),
            "token" => routes::put_token(text, out),
            "media" => responses::put_media(alloc, text, out),
            "response" => responses::put_response(alloc, text, out),
            "problem" => responses::put_problem(alloc, text, out),
            "refusal" => responses::put_refusal(alloc, text, out),
            _ => self.setting.put_row(words, text, out),
        }
    }

    /// Adds what comes of a word and its text.
    fn answer(&mut self, word: &str, text: &str, out: &mut String) -> Result<(), AllocError> {
        match word {
            "front" | "pieces" | "limit" => self.setting.set(word, text),
            "cuts" => self.setting.put_cuts(text, out),
            "fails" => self.setting.put_fails(text, out),
            "upload" | "blob" => self.uploads.take(word, text, out),
            _ => self.put_text(word, text, out),
        }
    }
}

impl TestRows for Rows {
    fn begin(&mut self) -> Result<(), AllocError> {
        self.uploads = Uploads::new(self.setting.alloc);
        Ok(())
    }

    /// In a line `|` stands for CR LF.
    fn take(&mut self, line: &str, out: &mut String) -> Result<(), AllocError> {
        let alloc = self.setting.alloc;
        let line = line.replace(alloc, "|", "%0D%0A")?;
        let (word, text) = first_word(&line);
        let mut answer = String::new(alloc);
        self.answer(word, text, &mut answer)?;
        out.push_str(&answer.replace(alloc, "%0D%0A", "|")?)
    }
}

fn main(rt: HostRuntime) -> io::Result<()> {
    let alloc = rt.alloc();
    let mut rows = Rows {
        setting: Setting::new(alloc)?,
        uploads: Uploads::new(alloc),
    };
    answer_rows(&rt, &mut rows)
}
