// The body of a message (RFC 9051 sections 6.3.2 and 6.4.5).
ghost use Rattle.std.specs.Prelude.{◌≡◌, Option, None, IfOk, OnOk, OnErr, IsErrOf, true};
ghost use Rattle.std.specs.Option.{option_copied};
ghost use Rattle.gate_world.specs.Causes.{Rose, LinkAlone};
ghost use Rattle.gate_world.specs.Tape.{Adds};
ghost use Rattle.told_mail.specs.Exchanges as telling;
ghost use Rattle.told_mail.specs.Mail.{folder_in, IsNextMail};
ghost use Rattle.imap_client.specs.LinkLife.{LinkLife, Stands, fresh};
ghost use Rattle.imap_client.specs.Bodies as bodies;
ghost use Rattle.imap_client.specs.Bodies.{FetchesBody};
ghost use Rattle.imap_client.specs.reading.Keeping.{KeepsMirror};
ghost use Rattle.imap_client.specs.Rounds.{CountsOn, KeepsCount};

use crate::client::Client;
use crate::connection::is_ok;
use crate::following::follow;
use crate::plan::{Due, Plan, Refusal};
use crate::selecting::{select_of, tells_kept};
use gate_world::Link;
use imap_exchange::LinkEnd;
use imap_types::{Command, FetchItems, Response};
use octets::Bytes;
use std::alloc::{AllocError, Global};
use std::mem;
use told_mail::{Exchange, Folder, Mirror, ToldError};

/// How far the fetch of a body is.
#[derive(Debug, Drop)]
pub enum BodyStage {
    /// SELECT of the folder is due.
    Selecting,
    /// The folder is selected; FETCH of the body is due.
    Fetching,
    /// The body's first 50,000,000 octets.
    Fetched(Bytes),
    /// What the plan ends with.
    Failing(Refusal),
}

/// The fetch of the body of a message that a mirror has.
#[derive(Drop)]
pub struct BodyFetch {
    stage: BodyStage,
    mirror: Mirror,
    folder: u64,
    uid: u32,
}

fn is_uid(uid: u32, told: Option<u32>) -> bool
    ensures { result ≡ telling.is_uid uid told }
{
    match told {
        Some(told) => told == uid,
        None => false,
    }
}

/// The body that the items tell for the UID.
fn body_of_items(uid: u32, items: &FetchItems) -> Option<&Bytes>
    ensures { option_copied result ≡ bodies.body_of_items uid items.now }
{
    if is_uid(uid, items.uid) {
        items.body.as_ref()
    } else {
        None
    }
}

fn body_in(uid: u32, response: &Response) -> Option<&Bytes>
    ensures { option_copied result ≡ bodies.body_in uid response.now }
{
    match response {
        Response::Fetch { items, .. } => body_of_items(uid, items),
        _ => None,
    }
}

/// The last body that is told for the UID.
fn last_body(uid: u32, responses: &[Response]) -> Option<&Bytes>
    ensures { option_copied result ≡ bodies.last_body uid responses.now }
{
    let mut last = None;
    for response in responses {
        if let Some(body) = body_in(uid, response) {
            last = Some(body);
        }
    }
    last
}

/// The stage once the body was asked.
fn fetched(body: Option<&Bytes>) -> Result<BodyStage, AllocError>
    ensures { IfOk result (λ stage. stage ≡ bodies.fetched (option_copied body.entry)) }
{
    match body {
        Some(body) => Ok(BodyStage::Fetched(body.share()?)),
        None => Ok(BodyStage::Failing(Refusal::Lacks)),
    }
}

fn validity_of(folder: Option<&Folder>) -> u32
    ensures { result ≡ bodies.folder_validity (option_copied folder.entry) }
{
    match folder {
        Some(folder) => folder.validity,
        None => 0,
    }
}

/// The stage once the folder is selected, which is kept under this validity.
fn selected(validity: u32, responses: &[Response]) -> BodyStage
    ensures { result ≡ bodies.selected_body_stage validity responses.now }
{
    if tells_kept(validity, responses) {
        BodyStage::Fetching
    } else {
        BodyStage::Failing(Refusal::Lacks)
    }
}

fn is_selected(selected: Option<&[u8]>, name: &[u8]) -> bool
    ensures { result ≡ bodies.is_selected (option_copied selected.entry) name.now }
{
    match selected {
        Some(selected) => selected == name,
        None => false,
    }
}

/// Where the fetch begins.
fn begun(selected: Option<&[u8]>, folder: Option<&Folder>) -> BodyStage
    ensures { result ≡ bodies.body_begun (option_copied selected.entry) (option_copied folder.entry) }
{
    match folder {
        Some(folder) => {
            if is_selected(selected, folder.name.as_slice()) {
                BodyStage::Fetching
            } else {
                BodyStage::Selecting
            }
        }
        None => BodyStage::Failing(Refusal::Lacks),
    }
}

fn select_due(folder: Option<&Folder>) -> Result<Due, AllocError>
    ensures { IfOk result (λ due. due ≡ bodies.select_due (option_copied folder.entry)) }
{
    match folder {
        Some(folder) => select_of(folder),
        None => Ok(Due::Fails(Refusal::Lacks)),
    }
}

impl BodyFetch {
    fn validity(&self) -> u32
        ensures { result ≡ bodies.folder_validity (folder_in self.now.mirror.mail.folders self.now.folder) }
    {
        validity_of(self.mirror.folder(self.folder))
    }

    /// The stage once an exchange is completed, where the folder is kept under this validity.
    fn stage_after(&self, validity: u32, x: &Exchange) -> Result<BodyStage, AllocError>
        ensures { IfOk result (λ stage. stage ≡ bodies.body_after self.now.uid self.now.stage validity x.now) }
    {
        if !is_ok(x.status) {
            return Ok(BodyStage::Failing(Refusal::Refused));
        }
        match &self.stage {
            BodyStage::Selecting => Ok(selected(validity, x.responses.as_slice())),
            BodyStage::Fetching => fetched(last_body(self.uid, x.responses.as_slice())),
            BodyStage::Fetched(body) => Ok(BodyStage::Fetched(body.share()?)),
            BodyStage::Failing(why) => Ok(BodyStage::Failing(*why)),
        }
    }
}

impl Plan for BodyFetch {
    ghost plan = { λ f. bodies.body_from f.folder f.uid (record { stage = f.stage; mail = f.mirror.mail }) };

    ghost hears = { λ f x g. (g.folder ≡ f.folder) × (g.uid ≡ f.uid) × (record { stage = g.stage; mail = g.mirror.mail } ≡ bodies.body_step f.folder f.uid (record { stage = f.stage; mail = f.mirror.mail }) x)
        × (telling.TellsKnown f.mirror.mail x → g.mirror.changes ≡ f.mirror.changes) };

    ghost keeps = { λ f g. KeepsMirror f.mirror g.mirror };

    fn due(&self, _alloc: Global) -> Result<Due, AllocError> {
        match &self.stage {
            BodyStage::Selecting => select_due(self.mirror.folder(self.folder)),
            BodyStage::Fetching => Ok(Due::Send(Command::FetchBody { uid: self.uid })),
            BodyStage::Fetched(_) => Ok(Due::Done),
            BodyStage::Failing(why) => Ok(Due::Fails(*why)),
        }
    }

    fn hear(&mut self, _alloc: Global, x: Exchange) -> Result<(), AllocError> {
        let validity = self.validity();
        match self.mirror.tell(&x) {
            Ok(()) => {
                self.stage = self.stage_after(validity, &x)?;
                Ok(())
            }
            Err(ToldError::Memory) => Err(AllocError),
            Err(ToldError::Contradicts { .. }) => unreachable!(),
        }
    }
}

/// The body that a fetch ends with.
fn body_at(stage: BodyStage) -> Bytes
    requires { bodies.HasBody stage }
    ensures { stage ≡ BodyStage.Fetched result }
{
    match stage {
        BodyStage::Fetched(body) => body,
        _ => unreachable!(),
    }
}

impl Client {
    /// Fetches the body of a message of the mirror, whose folder is selected before where it isn't, and tells the mirror what
    /// comes with it. After an Err the life has ended; the mirror holds what completed exchanges told, and is to be dropped
    /// where the end is out of memory.
    pub fn fetch_body<L: Link>(
        &mut self,
        link: &mut L,
        mirror: &mut Mirror,
        folder: u64,
        uid: u32,
    ) -> Result<Bytes, LinkEnd>
        requires { self.old.alive ≡ true }
        ensures tape { Adds (L.tape link.old) (L.tape link.new) (λ es. (life : LinkLife) → Stands self.old life → (left : LinkLife)
            × (fetches : FetchesBody folder uid mirror.old.mail mirror.new.mail life left self.new result es) × KeepsCount mirror.old mirror.new result fetches.exchanges) }
        ensures alive { OnOk result (self.new.alive ≡ true) }
        ensures ended { OnErr result (self.new ≡ fresh) }
        ensures counts { CountsOn mirror.old mirror.new }
        ensures next { IsNextMail mirror.old.mail mirror.new.mail }
        ensures alone { LinkAlone (L.faults link.old) (L.faults link.new) }
        ensures cause { IsErrOf result LinkEnd.Lost → Rose (L.faults link.old).link (L.faults link.new).link }
        ensures hidden { L.hidden link.new ≡ L.hidden link.old }
    {
        mirror.each_is_mail();
        let empty = Mirror::new(self.allocator());
        let stage = begun(self.selected(), mirror.folder(folder));
        let mut plan = BodyFetch {
            stage,
            mirror: mem::replace(mirror, empty),
            folder,
            uid,
        };
        let result = follow(self, link, &mut plan);
        let BodyFetch {
            stage,
            mirror: told,
            ..
        } = plan;
        *mirror = told;
        match result {
            Ok(()) => Ok(body_at(stage)),
            Err(end) => Err(end),
        }
    }
}
