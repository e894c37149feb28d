// A round: LIST, and then for each folder that can be selected SELECT and what is fetched (RFC 9051 sections 6.3.2, 6.3.9
// and 6.4.5, RFC 7162 section 3.2.5).
ghost use Rattle.std.specs.Prelude.{◌≡◌, ◌+◌, Option, IfOk, OnOk, OnErr, IsErrOf, drop, slice_get, true};
ghost use Rattle.std.specs.List.{list_any};
ghost use Rattle.std.specs.Option.{option_copied};
ghost use Rattle.gate_world.specs.Causes.{Rose, LinkAlone};
ghost use Rattle.gate_world.specs.Tape.{Adds};
ghost use Rattle.told_mail.specs.Exchanges as telling;
ghost use Rattle.told_mail.specs.Mail.{IsNextMail};
ghost use Rattle.imap_client.specs.LinkLife.{LinkLife, Stands, fresh};
ghost use Rattle.imap_client.specs.Rounds as rounds;
ghost use Rattle.imap_client.specs.Selecting as selecting;
ghost use Rattle.imap_client.specs.reading.Keeping.{KeepsMirror};
ghost use Rattle.imap_client.specs.Rounds.{CountsOn, KeepsCount, Rounds};

use crate::client::Client;
use crate::connection::is_ok;
use crate::following::follow;
use crate::plan::{Due, Plan, Refusal};
use crate::selecting::{select_of, tells_validity};
use gate_world::Link;
use imap_exchange::LinkEnd;
use imap_types::{Code, Command, Response, Status};
use octets::Bytes;
use std::alloc::{AllocError, Global};
use std::mem;
use told_mail::{Exchange, Folder, Mirror, NumberedFolder, ToldError, after_closed};

/// The most UIDs that one fetch of headers asks for, but for the last one of a folder.
pub const SLICE_UIDS: u64 = 10_000;

/// The greatest UIDNEXT up to which a folder is asked for in slices whatever its number of messages.
pub const SPARSE_UIDS: u64 = 1_000_000;

/// How far a round is. A folder is named by its place among all, by number.
#[derive(Clone, Copy, Debug, PartialEq, Drop)]
pub enum RoundStage {
    /// LIST is due, with the special uses where the store has SPECIAL-USE.
    Listing { special_use: bool },
    /// SELECT of the folder is due.
    Selecting(usize),
    /// The UIDNEXT is the one that the folder's SELECT told; 0 where it told none, or the folder is sparse.
    FetchingFlags { at: usize, uid_next: u32 },
    /// FETCH of headers from the UID on before which all is known, a slice at a time; UIDNEXT as above.
    FetchingHeaders { at: usize, uid_next: u32 },
    /// No folder is left.
    Finished,
    /// What the plan ends with.
    Failing(Refusal),
}

/// A round over the folders of a mirror.
#[derive(Drop)]
pub struct Round {
    /// `Listing` as it begins.
    pub stage: RoundStage,
    /// What completed exchanges told, after what it had as the round began.
    pub mirror: Mirror,
}

/// Whether a folder of this attribute can't be selected.
fn bars_selection(attribute: &[u8]) -> bool
    ensures { result ≡ rounds.bars_selection attribute.now }
{
    attribute == b"\\noselect".as_slice() || attribute == b"\\nonexistent".as_slice()
}

fn is_barred(attributes: &[Bytes]) -> bool
    ensures { result ≡ list_any rounds.bars_selection attributes.now }
{
    attributes
        .iter()
        .any(|attribute| bars_selection(attribute.as_slice()))
}

/// Whether a folder can be selected (RFC 9051 section 7.3.1).
pub fn is_selectable(held: &NumberedFolder) -> bool
    ensures { result ≡ rounds.is_selectable held.now }
{
    !is_barred(held.folder.attributes.as_slice())
}

/// The next folder from this place on.
fn next_stage(mirror: &Mirror, from: usize) -> RoundStage
    ensures { result ≡ rounds.next_stage from mirror.now.mail }
{
    let folders = mirror.folders();
    let mut at = from;
    while at < folders.len() {
        if is_selectable(&folders[at]) {
            return RoundStage::Selecting(at);
        }
        at += 1;
    }
    RoundStage::Finished
}

fn has_modseqs(folder: &Folder) -> bool
    ensures { result ≡ rounds.has_modseqs folder.now }
{
    folder.modseq != 0
}

/// Whether more UIDs may be new than one slice has.
fn is_sliced(uid_next: u32, folder: &Folder) -> bool
    ensures { result ≡ rounds.is_sliced uid_next folder.now }
{
    folder.next.saturating_add(SLICE_UIDS) < u64::from(uid_next)
}

/// A slice of the headers that are new.
fn slice_of(uid_next: u32, folder: &Folder) -> Command
    requires { rounds.is_sliced uid_next folder.now ≡ true }
    ensures { result ≡ rounds.slice_of folder.now }
{
    Command::FetchSlice {
        from: folder.next as u32,
        to: (folder.next + (SLICE_UIDS - 1)) as u32,
        modseq: has_modseqs(folder),
    }
}

/// All headers that are new.
fn new_of(folder: &Folder) -> Command
    ensures { result ≡ rounds.new_of folder.now }
{
    Command::FetchNew {
        from: folder.next.min(u64::from(u32::MAX)) as u32,
        modseq: has_modseqs(folder),
    }
}

fn headers_of(uid_next: u32, folder: &Folder) -> Due
    ensures { result ≡ rounds.headers_of uid_next folder.now }
{
    if is_sliced(uid_next, folder) {
        Due::Send(slice_of(uid_next, folder))
    } else {
        Due::Send(new_of(folder))
    }
}

fn uid_next_in(response: &Response) -> Option<u32>
    ensures { result ≡ rounds.uid_next_in response.now }
{
    match response {
        Response::Untagged {
            status: Status::Ok,
            code: Code::UidNext(uid),
        } => Some(*uid),
        _ => None,
    }
}

/// The UIDNEXT that these responses tell last, else 0.
fn last_uid_next(responses: &[Response]) -> u32
    ensures { result ≡ telling.last_told rounds.uid_next_in 0 responses.now }
{
    let mut last = 0;
    for response in responses {
        if let Some(uid) = uid_next_in(response) {
            last = uid;
        }
    }
    last
}

fn exists_in(response: &Response) -> Option<u32>
    ensures { result ≡ rounds.exists_in response.now }
{
    match response {
        Response::Exists(count) => Some(*count),
        _ => None,
    }
}

/// The number of messages that these responses tell last, else the greatest one.
fn last_exists(responses: &[Response]) -> u32
    ensures { result ≡ telling.last_told rounds.exists_in 4294967295 responses.now }
{
    let mut last = u32::MAX;
    for response in responses {
        if let Some(count) = exists_in(response) {
            last = count;
        }
    }
    last
}

/// The UIDNEXT that a SELECT tells, up to which headers are asked for in slices; 0 where the folder is sparse.
fn sliced_to(responses: &[Response]) -> u32
    ensures { result ≡ rounds.sliced_to responses.now }
{
    let told = after_closed(responses);
    let uid_next = last_uid_next(told);
    let few = u64::from(last_exists(told)) <= SLICE_UIDS;
    if few && u64::from(uid_next) > SPARSE_UIDS {
        0
    } else {
        uid_next
    }
}

/// What is fetched first of a folder that is selected.
fn fetching(mirror: &Mirror, at: usize, uid_next: u32) -> RoundStage
    ensures { result ≡ rounds.fetching at uid_next (slice_get mirror.now.mail.folders at) }
{
    match mirror.folders().get(at) {
        Some(held) => {
            if held.folder.modseq == 0 {
                RoundStage::FetchingFlags { at, uid_next }
            } else {
                RoundStage::FetchingHeaders { at, uid_next }
            }
        }
        None => RoundStage::Failing(Refusal::Lacks),
    }
}

/// What follows the SELECT of a folder.
fn selected(mirror: &Mirror, at: usize, responses: &[Response]) -> RoundStage
    ensures { result ≡ rounds.selected_stage at responses.now mirror.now.mail }
{
    if tells_validity(responses) {
        fetching(mirror, at, sliced_to(responses))
    } else {
        RoundStage::Failing(Refusal::Lacks)
    }
}

fn is_sliced_at(mirror: &Mirror, at: usize, uid_next: u32) -> bool
    ensures { result ≡ rounds.is_sliced_in uid_next (slice_get mirror.now.mail.folders at) }
{
    match mirror.folders().get(at) {
        Some(held) => is_sliced(uid_next, &held.folder),
        None => false,
    }
}

/// The next folder after this place.
fn next_after(mirror: &Mirror, at: usize) -> RoundStage
    ensures { result ≡ rounds.next_stage (at + 1) mirror.now.mail }
{
    if at < mirror.folders().len() {
        next_stage(mirror, at + 1)
    } else {
        RoundStage::Finished
    }
}

/// What follows a fetch of headers.
fn fetched(mirror: &Mirror, sliced: bool, at: usize, uid_next: u32) -> RoundStage
    ensures { result ≡ rounds.fetched_stage sliced at uid_next mirror.now.mail }
{
    if sliced {
        RoundStage::FetchingHeaders { at, uid_next }
    } else {
        next_after(mirror, at)
    }
}

/// What follows an exchange that is answered OK.
fn obeyed(stage: RoundStage, sliced: bool, responses: &[Response], mirror: &Mirror) -> RoundStage
    ensures { result ≡ rounds.obeyed stage sliced responses.now mirror.now.mail }
{
    match stage {
        RoundStage::Listing { .. } => next_stage(mirror, 0),
        RoundStage::Selecting(at) => selected(mirror, at, responses),
        RoundStage::FetchingFlags { at, uid_next } => RoundStage::FetchingHeaders { at, uid_next },
        RoundStage::FetchingHeaders { at, uid_next } => fetched(mirror, sliced, at, uid_next),
        RoundStage::Finished => RoundStage::Finished,
        RoundStage::Failing(why) => RoundStage::Failing(why),
    }
}

/// What follows an exchange.
fn stage_after(stage: RoundStage, sliced: bool, x: &Exchange, mirror: &Mirror) -> RoundStage
    ensures { result ≡ rounds.round_after stage sliced x.now mirror.now.mail }
{
    if is_ok(x.status) {
        obeyed(stage, sliced, x.responses.as_slice(), mirror)
    } else {
        RoundStage::Failing(Refusal::Refused)
    }
}

fn select_due(mirror: &Mirror, at: usize) -> Result<Due, AllocError>
    ensures { IfOk result (λ due. due ≡ rounds.of_folder selecting.select_of (slice_get mirror.now.mail.folders at)) }
{
    match mirror.folders().get(at) {
        Some(held) => select_of(&held.folder),
        None => Ok(Due::Fails(Refusal::Lacks)),
    }
}

fn headers_due(mirror: &Mirror, at: usize, uid_next: u32) -> Due
    ensures { result ≡ rounds.of_folder (rounds.headers_of uid_next) (slice_get mirror.now.mail.folders at) }
{
    match mirror.folders().get(at) {
        Some(held) => headers_of(uid_next, &held.folder),
        None => Due::Fails(Refusal::Lacks),
    }
}

/// Whether a slice is due.
fn is_slicing(stage: RoundStage, mirror: &Mirror) -> bool
    ensures { result ≡ rounds.is_slicing stage mirror.now.mail }
{
    match stage {
        RoundStage::FetchingHeaders { at, uid_next } => is_sliced_at(mirror, at, uid_next),
        _ => false,
    }
}

impl Plan for Round {
    ghost plan = { λ r. rounds.round_from (record { stage = r.stage; mail = r.mirror.mail }) };

    ghost hears = { λ r x s. (record { stage = s.stage; mail = s.mirror.mail } ≡ rounds.round_step (record { stage = r.stage; mail = r.mirror.mail }) x)
        × (telling.TellsKnown r.mirror.mail x → s.mirror.changes ≡ r.mirror.changes) };

    ghost keeps = { λ r s. KeepsMirror r.mirror s.mirror };

    fn due(&self, _alloc: Global) -> Result<Due, AllocError> {
        match self.stage {
            RoundStage::Listing { special_use } => Ok(Due::Send(Command::List { special_use })),
            RoundStage::Selecting(at) => select_due(&self.mirror, at),
            RoundStage::FetchingFlags { .. } => Ok(Due::Send(Command::FetchFlags)),
            RoundStage::FetchingHeaders { at, uid_next } => {
                Ok(headers_due(&self.mirror, at, uid_next))
            }
            RoundStage::Finished => Ok(Due::Done),
            RoundStage::Failing(why) => Ok(Due::Fails(why)),
        }
    }

    fn hear(&mut self, _alloc: Global, x: Exchange) -> Result<(), AllocError> {
        let sliced = is_slicing(self.stage, &self.mirror);
        match self.mirror.tell(&x) {
            Ok(()) => {
                self.stage = stage_after(self.stage, sliced, &x, &self.mirror);
                Ok(())
            }
            Err(ToldError::Memory) => Err(AllocError),
            Err(ToldError::Contradicts { .. }) => unreachable!(),
        }
    }
}

impl Client {
    /// Asks which folders there are and what is new in each, and tells the mirror. After an Err the life has ended; the
    /// mirror holds what completed exchanges told, and is to be dropped where the end is out of memory.
    pub fn round<L: Link>(&mut self, link: &mut L, mirror: &mut Mirror) -> Result<(), LinkEnd>
        requires { self.old.alive ≡ true }
        ensures tape { Adds (L.tape link.old) (L.tape link.new) (λ es. (life : LinkLife) → Stands self.old life → (left : LinkLife)
            × (rounds : Rounds mirror.old.mail mirror.new.mail life left self.new result es) × KeepsCount mirror.old mirror.new result rounds.exchanges) }
        ensures alive { OnOk result (self.new.alive ≡ true) }
        ensures ended { OnErr result (self.new ≡ fresh) }
        ensures counts { CountsOn mirror.old mirror.new }
        ensures next { IsNextMail mirror.old.mail mirror.new.mail }
        ensures alone { LinkAlone (L.faults link.old) (L.faults link.new) }
        ensures cause { IsErrOf result LinkEnd.Lost → Rose (L.faults link.old).link (L.faults link.new).link }
        ensures hidden { L.hidden link.new ≡ L.hidden link.old }
    {
        mirror.each_is_mail();
        let empty = Mirror::new(self.allocator());
        let mut plan = Round {
            stage: RoundStage::Listing {
                special_use: self.special_use(),
            },
            mirror: mem::replace(mirror, empty),
        };
        let result = follow(self, link, &mut plan);
        let Round { mirror: told, .. } = plan;
        *mirror = told;
        result
    }
}
