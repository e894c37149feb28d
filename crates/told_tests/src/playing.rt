// Link lives played over a world that follows a script.
use crate::showing::shown;
use gate_world::Event;
use imap_client::{Client, LinkEnd};
use imap_grammar::Status;
use octets::Bytes;
use scripted_world::{Script, ScriptWorld};
use std::alloc::{AllocError, Global};
use std::mem;
use test_rows::put_octets;
use told_dialogues::command_of;
use told_mail::Mirror;

/// How lives are played.
#[derive(Drop)]
pub(crate) struct Setting {
    pub user: Vec<u8>,
    pub password: Vec<u8>,
    /// The most octets that one read gives.
    pub piece: usize,
    /// Which call of the outside fails (0: none).
    pub failing: u64,
    /// The folder's number and the UID of a body that is fetched after each round; UID 0: none.
    pub body: (u64, u32),
    /// What is asked in place of a round, where there is something.
    pub exchanges: Vec<String>,
}

/// What came of lives.
#[derive(PartialEq, Drop)]
pub(crate) struct Played {
    /// How each call ended, in order.
    pub answers: String,
    /// What the store took in the last life, a line for each line, with `|` at the end of the life.
    pub took: String,
    pub mail: String,
}

/// One life after another over one mirror.
#[derive(Drop)]
struct Course {
    world: ScriptWorld,
    client: Client,
    mirror: Mirror,
    answers: String,
}

impl Course {
    fn new(alloc: Global, world: ScriptWorld) -> Course {
        Course {
            world,
            client: Client::new(alloc),
            mirror: Mirror::new(alloc),
            answers: String::new(alloc),
        }
    }

    fn put_end(&mut self, done: Result<(), LinkEnd>) -> Result<(), AllocError> {
        match done {
            Ok(()) => self.answers.push_str("ok "),
            Err(end) => write!(self.answers, "{end:?} "),
        }
    }

    /// Leaves the life that there is, and connects.
    fn connect(&mut self, user: &[u8]) -> Result<(), AllocError> {
        self.client.leave(&mut self.world);
        let connected = self.client.connect(&mut self.world, user);
        self.put_end(connected)
    }

    /// Does a round, where the client is alive.
    fn round(&mut self) -> Result<(), AllocError> {
        if !self.client.alive() {
            return Ok(());
        }
        let done = self.client.round(&mut self.world, &mut self.mirror);
        self.put_end(done)
    }

    /// Fetches a body, where the client is alive.
    fn fetch(&mut self, folder: u64, uid: u32) -> Result<(), AllocError> {
        if !self.client.alive() {
            return Ok(());
        }
        let fetched = self
            .client
            .fetch_body(&mut self.world, &mut self.mirror, folder, uid);
        match fetched {
            Ok(body) => write!(self.answers, "{} octets ", body.as_slice().len()),
            Err(end) => self.put_end(Err(end)),
        }
    }

    /// Adds a status, the folder that is selected now, and whether the life has ended.
    fn put_status(&mut self, status: Status) -> Result<(), AllocError> {
        write!(self.answers, "{status:?} ")?;
        put_octets(&mut self.answers, self.client.selected().unwrap_or(b"-"))?;
        let ending = if self.client.alive() { " " } else { " ended " };
        self.answers.push_str(ending)
    }

    /// Adds how an exchange ended that isn't completed, and whether octets of its command were taken.
    fn put_broken(&mut self, end: LinkEnd, torn: bool) -> Result<(), AllocError> {
        self.put_end(Err(end))?;
        let taken = if torn { "torn " } else { "" };
        self.answers.push_str(taken)
    }

    /// Sends the command that is asked, where the client is alive.
    fn exchange(&mut self, alloc: Global, asked: &str) -> Result<(), AllocError> {
        let Some(command) = command_of(alloc, asked)? else {
            return self.answers.push_str("nothing ");
        };
        if !self.client.alive() {
            return Ok(());
        }
        let mut torn = false;
        let exchanged = self
            .client
            .exchange_torn(&mut self.world, command, &mut torn);
        match exchanged {
            Ok(exchange) => self.put_status(exchange.status),
            Err(end) => self.put_broken(end, torn),
        }
    }

    /// Sends one command after another.
    fn exchanges(&mut self, alloc: Global, asked: &[String]) -> Result<(), AllocError> {
        for asked in asked {
            self.exchange(alloc, asked)?;
        }
        Ok(())
    }

    /// One life.
    fn live(&mut self, alloc: Global, setting: &Setting) -> Result<(), AllocError> {
        self.connect(&setting.user)?;
        if !setting.exchanges.is_empty() {
            return self.exchanges(alloc, &setting.exchanges);
        }
        self.round()?;
        let (folder, uid) = setting.body;
        if uid == 0 {
            return Ok(());
        }
        self.fetch(folder, uid)
    }

    /// One life after another, the last of which is left.
    fn lives(&mut self, alloc: Global, setting: &Setting, count: usize) -> Result<(), AllocError> {
        for _ in 0..count {
            self.live(alloc, setting)?;
        }
        self.client.leave(&mut self.world);
        Ok(())
    }

    /// What came of the lives.
    fn played(&mut self, alloc: Global) -> Result<Played, AllocError> {
        let took = taken(alloc, &self.world)?;
        let mail = shown(alloc, &self.mirror)?;
        let answers = mem::replace(&mut self.answers, String::new(alloc));
        Ok(Played {
            answers,
            took,
            mail,
        })
    }
}

/// The script of these lives, without what the store gives.
fn script_of(alloc: Global, setting: &Setting) -> Result<Script, AllocError> {
    let mut script = Script::new(alloc)?;
    script.password = Bytes::copy_of(alloc, &setting.password)?;
    script.piece = setting.piece;
    script.failing(setting.failing)
}

fn world_of(
    alloc: Global,
    setting: &Setting,
    links: &[Vec<u8>],
) -> Result<ScriptWorld, AllocError> {
    let mut script = script_of(alloc, setting)?;
    for link in links {
        script = script.with_link(link)?;
    }
    Ok(ScriptWorld::new(alloc, script))
}

/// Adds what the store took; from a dial on it is that of another life.
fn put_taken(took: &mut String, event: &Event) -> Result<(), AllocError> {
    match event {
        Event::Dialed => {
            took.clear();
            Ok(())
        }
        Event::StoreTook(octets) => put_octets(took, octets.as_slice()),
        Event::LinkEnded => took.push('|'),
        _ => Ok(()),
    }
}

/// What the store took in the last life.
fn taken(alloc: Global, world: &ScriptWorld) -> Result<String, AllocError> {
    let mut took = String::new(alloc);
    for event in world.events().unwrap_or(&[]) {
        put_taken(&mut took, event)?;
    }
    took.replace(alloc, "%0D%0A", "\n")
}

/// Plays a life for each of these texts of the store.
pub(crate) fn play(
    alloc: Global,
    setting: &Setting,
    links: &[Vec<u8>],
) -> Result<Played, AllocError> {
    let world = world_of(alloc, setting, links)?;
    let mut course = Course::new(alloc, world);
    course.lives(alloc, setting, links.len())?;
    course.played(alloc)
}
