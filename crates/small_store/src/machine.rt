// The store: its mail, and a session over it.
ghost use Rattle.std.specs.Prelude.{◌≡◌, ◌≢◌, ◌⊎◌, ◌<◌, ◌^◌, ◌++◌, ℕ, [], length, List, Option, Some, None, IfOk, OnErr, OnOk, MatchOption};
ghost use Rattle.std.specs.List.{flat_map};
ghost use Rattle.imap_types.specs.declared.command.Command.TheVariants as commands;
ghost use Rattle.honest_store.specs.StoreMail.{folder_called, StoreFolder};
ghost use Rattle.honest_store.specs.Sessions.{StoreAnswer, StoreSession};
ghost use Rattle.honest_store.specs.WellFormed.{AscendByUid, IsStoreFolder};
ghost use Rattle.honest_store.specs.Honest.{after_no};
ghost use Rattle.small_answers.specs.Changes.{first_session, next_validity, selected_folder};
ghost use Rattle.small_mail.specs.Places.{IsFolderAt};
ghost use Rattle.small_answers.specs.Answers as answers;
ghost use Rattle.small_answers.specs.Answers.{AnswersCommand, ok_reply};
ghost use Rattle.small_answers.specs.Causes.{RefusalCause};
ghost use Rattle.small_answers.specs.SmallMail.{IsSmallMail};
ghost use Rattle.small_responses.specs.AnswerTexts.{text_of_answer};
ghost use Rattle.small_responses.specs.Tellable.{IsTellableCommand, IsTellableMail};
ghost use Rattle.small_store.specs.reading.Fetches as fetches;
ghost use Rattle.small_store.specs.reading.Steps.{Gives, ReadsMessages, UsesMessages};
ghost use Rattle.store_responses.specs.ResponseTexts.{text_of_response};

use crate::answer::Answer;
use crate::fetches::{Asked, Which, greatest_uid, push_fetches};
use crate::messages::{append, expunge, move_out, store};
use crate::selecting::{closed_responses, select_responses};
use crate::told::{list_responses, two_names};
use imap_types::{Code, Command, Response};
use octets::Bytes;
use small_mail::names::told_name;
use small_mail::{StoredFolder, StoredMail, StoredMessage};
use std::alloc::{AllocError, Global};
use std::marker::Model;
use store_responses::push_response;

/// What a store holds and does, where its mail is one that can be told.
#[derive(Drop)]
pub(crate) struct StoredMachine {
    pub(crate) mail: StoredMail,
    /// The number of the folder that is selected.
    pub(crate) selected: Option<u32>,
    pub(crate) alloc: Global,
}

impl Model for StoredMachine {
    ghost use Rattle.honest_store.specs.Sessions.{StoreSession};

    ghost Value = { StoreSession };

    ghost view = { λ s. record { mail = s.mail; selected = s.selected } };
}

impl StoredMachine {
    /// INBOX and Archive, both empty, with the UIDVALIDITIES 1 and 2, and no folder selected.
    pub(crate) fn new(alloc: Global) -> Result<StoredMachine, AllocError>
        ensures first { IfOk result (λ s. s ≡ first_session) }
        ensures tellable { IfOk result (λ s. IsTellableMail s.mail) }
    {
        let mail = StoredMail::new(alloc)?;
        Ok(StoredMachine {
            mail,
            selected: None,
            alloc,
        })
    }

    /// A session begins over the mail as it is, with no folder selected.
    pub(crate) fn begin_session(&mut self)
        ensures { self.new ≡ answers.unselected self.old }
    {
        self.selected = None;
    }

    /// The octets of the answer to the command, under its tag. Where memory is wanting, the answer is lost, and the command has
    /// done all that it does or nothing.
    pub(crate) fn answer(&mut self, tag: &[u8], command: &Command) -> Result<Vec<u8>, AllocError>
        requires tellable { IsTellableMail self.old.mail }
        requires command { IsTellableCommand command.now }
        ensures ok { IfOk result (λ octets. (a : StoreAnswer) × AnswersCommand self.old command.now a self.new × (octets.items ≡ text_of_answer tag.now a)) }
        ensures err { OnErr result ((self.new ≡ self.old) ⊎ ((a : StoreAnswer) × AnswersCommand self.old command.now a self.new)) }
        ensures tellable { IsTellableMail self.new.mail }
    {
        let tag = Bytes::copy_of(self.alloc, tag)?;
        let alloc = self.alloc;
        let answer = self.respond(command)?;
        octets_of(alloc, tag, answer)
    }

    /// What the command is answered. Where memory is wanting nothing changes.
    pub(crate) fn respond(&mut self, command: &Command) -> Result<Answer, AllocError>
        requires tellable { IsTellableMail self.old.mail }
        requires command { IsTellableCommand command.now }
        ensures ok { IfOk result (λ a. AnswersCommand self.old command.now a self.new) }
        ensures err { OnErr result (self.new ≡ self.old) }
        ensures tellable { IsTellableMail self.new.mail }
    {
        if self.refuses(command)? {
            return self.refuse(command);
        }
        self.accept(command)
    }

    /// NO. A SELECT that is refused leaves no folder selected, and tells that one was closed (RFC 9051 section 6.3.2). Where memory is
    /// wanting nothing changes.
    fn refuse(&mut self, command: &Command) -> Result<Answer, AllocError>
        ensures answer { IfOk result (λ a. a ≡ answers.no_answer command.now self.old.selected) }
        ensures session { OnOk result (self.new ≡ after_no command.now self.old) }
        ensures err { OnErr result (self.new ≡ self.old) }
    {
        let Command::Select { .. } = command else {
            return Ok(Answer::refused(Vec::new(self.alloc)));
        };
        let responses = closed_responses(self.alloc, self.selected)?;
        self.selected = None;
        Ok(Answer::refused(responses))
    }

    /// OK to a command for whose refusal there is no cause.
    fn accept(&mut self, command: &Command) -> Result<Answer, AllocError>
        requires small { IsSmallMail self.old.mail }
        requires no_cause { RefusalCause self.old command.now → ⊥ }
        ensures ok { IfOk result (λ a. Gives (ok_reply self.old command.now) a self.new) }
        ensures err { OnErr result (self.new ≡ self.old) }
    {
        let alloc = self.alloc;
        match command {
            Command::Capability => capability(alloc),
            Command::Enable => enable(alloc),
            Command::List { .. } => Ok(Answer::told(list_responses(alloc, self.mail.folders())?)),
            Command::Login { .. } => Ok(self.unselect()),
            Command::Unselect => Ok(self.unselect()),
            Command::Select { name, known } => self.select(name.as_slice(), *known),
            Command::Create { name } => self.create(name.as_slice()),
            Command::Delete { name } => Ok(self.delete(name.as_slice())),
            Command::Rename { from, to } => self.rename(from.as_slice(), to.as_slice()),
            Command::Subscribe { name, on } => self.subscribe(name.as_slice(), *on),
            Command::Append {
                name,
                flags,
                date,
                message,
            } => match self.mail.place_named(name.as_slice()) {
                Some(place) => append(alloc, &mut self.mail, place, flags, *date, message),
                None => Ok(Answer::done(alloc)),
            },
            _ => match self.selected_place() {
                Some(place) => self.accept_in(place, command),
                None => Ok(Answer::done(alloc)),
            },
        }
    }

    /// The place of the folder that is selected, where it is there.
    pub(crate) fn selected_place(&self) -> Option<usize>
        ensures { MatchOption result (selected_folder self.now ≡ None)
            (λ place. (f : StoreFolder) × IsFolderAt self.now.mail place f × (selected_folder self.now ≡ Some f)) }
    {
        match self.selected {
            Some(number) => self.mail.place_numbered(number),
            None => None,
        }
    }

    fn unselect(&mut self) -> Answer
        ensures { Gives (answers.reply_with (answers.unselected self.old) []) result self.new }
    {
        self.selected = None;
        Answer::done(self.alloc)
    }

    fn select(&mut self, name: &[u8], known: Option<(u32, u64)>) -> Result<Answer, AllocError>
        requires small { IsSmallMail self.old.mail }
        ensures ok { IfOk result (λ a. Gives (ok_reply self.old (commands.Select name.now known)) a self.new) }
        ensures err { OnErr result (self.new ≡ self.old) }
    {
        let Some(folder) = self.mail.named(name) else {
            return Ok(Answer::done(self.alloc));
        };
        let responses = select_responses(self.alloc, folder, self.selected, known)?;
        self.selected = Some(folder.validity());
        Ok(Answer::coded(responses, Code::Other))
    }

    fn create(&mut self, name: &[u8]) -> Result<Answer, AllocError>
        requires room { next_validity self.old.mail < 2 ^ 32 }
        ensures ok { IfOk result (λ a. Gives (ok_reply self.old (commands.Create name.now)) a self.new) }
        ensures err { OnErr result (self.new ≡ self.old) }
    {
        let Some(validity) = self.mail.next_validity() else {
            return Ok(Answer::done(self.alloc));
        };
        self.mail.create(self.alloc, told_name(name), validity)?;
        Ok(Answer::done(self.alloc))
    }

    fn delete(&mut self, name: &[u8]) -> Answer
        requires small { IsSmallMail self.old.mail }
        requires there { folder_called self.old.mail.folders name.now ≢ None }
        ensures { Gives (ok_reply self.old (commands.Delete name.now)) result self.new }
    {
        let Some(place) = self.mail.place_named(name) else {
            return Answer::done(self.alloc);
        };
        self.mail.delete(place);
        Answer::done(self.alloc)
    }

    fn rename(&mut self, from: &[u8], to: &[u8]) -> Result<Answer, AllocError>
        ensures ok { IfOk result (λ a. Gives (ok_reply self.old (commands.Rename from.now to.now)) a self.new) }
        ensures err { OnErr result (self.new ≡ self.old) }
    {
        self.mail
            .rename(self.alloc, told_name(from), told_name(to))?;
        Ok(Answer::done(self.alloc))
    }

    fn subscribe(&mut self, name: &[u8], on: bool) -> Result<Answer, AllocError>
        requires small { IsSmallMail self.old.mail }
        ensures ok { IfOk result (λ a. Gives (ok_reply self.old (commands.Subscribe name.now on)) a self.new) }
        ensures err { OnErr result (self.new ≡ self.old) }
    {
        self.mail.subscribe(self.alloc, name, on)?;
        Ok(Answer::done(self.alloc))
    }

    /// OK to a command on messages of the folder that is selected, which is at the place.
    fn accept_in(&mut self, place: usize, command: &Command) -> Result<Answer, AllocError>
        requires small { IsSmallMail self.old.mail }
        requires no_cause { RefusalCause self.old command.now → ⊥ }
        requires folder { (f : StoreFolder) × IsFolderAt self.old.mail place f × (selected_folder self.old ≡ Some f) }
        requires on_messages { UsesMessages command.now }
        ensures ok { IfOk result (λ a. Gives (ok_reply self.old command.now) a self.new) }
        ensures err { OnErr result (self.new ≡ self.old) }
    {
        let alloc = self.alloc;
        match command {
            Command::Store { uid, add, flags } => {
                store(alloc, &mut self.mail, place, *uid, *add, flags)
            }
            Command::Move { uid, name } => self.move_from(place, *uid, name.as_slice()),
            Command::Expunge { uid } => expunge(alloc, &mut self.mail, place, *uid),
            _ => read_messages(alloc, &self.mail.folders()[place], command),
        }
    }

    /// MOVE out of the folder at the place.
    fn move_from(&mut self, source: usize, uid: u32, name: &[u8]) -> Result<Answer, AllocError>
        requires small { IsSmallMail self.old.mail }
        requires no_cause { RefusalCause self.old (commands.Move uid name.now) → ⊥ }
        requires folder { (f : StoreFolder) × IsFolderAt self.old.mail source f × (selected_folder self.old ≡ Some f) }
        ensures ok { IfOk result (λ a. Gives (ok_reply self.old (commands.Move uid name.now)) a self.new) }
        ensures err { OnErr result (self.new ≡ self.old) }
    {
        let Some(at) = self.mail.folders()[source].place_of(uid) else {
            return Ok(Answer::done(self.alloc));
        };
        let Some(target) = self.mail.place_named(name) else {
            return Ok(Answer::done(self.alloc));
        };
        move_out(self.alloc, &mut self.mail, source, at, target)
    }
}

/// What CAPABILITY tells (section 6.1.1).
fn capability(alloc: Global) -> Result<Answer, AllocError>
    ensures { IfOk result (λ a. (s : StoreSession) → a ≡ answers.ok_answer (ok_reply s commands.Capability)) }
{
    let words = two_names(alloc, b"IMAP4rev2", b"QRESYNC")?;
    let mut responses = Vec::with_capacity(alloc, 1)?;
    responses.push(Response::Capability(words))?;
    Ok(Answer::told(responses))
}

/// What ENABLE tells (section 6.3.1).
fn enable(alloc: Global) -> Result<Answer, AllocError>
    ensures { IfOk result (λ a. (s : StoreSession) → a ≡ answers.ok_answer (ok_reply s commands.Enable)) }
{
    let words = two_names(alloc, b"QRESYNC", b"IMAP4rev2")?;
    let mut responses = Vec::with_capacity(alloc, 1)?;
    responses.push(Response::Enabled(words))?;
    Ok(Answer::told(responses))
}

/// The answer that tells of the messages that are asked for.
fn told_of(
    alloc: Global,
    messages: &[StoredMessage],
    which: Which,
    asked: Asked,
) -> Result<Answer, AllocError>
    requires count { length messages.now < 4294967296 }
    requires order { AscendByUid 0 messages.now }
    ensures { IfOk result (λ a. a ≡ fetches.answer_of which asked messages.now) }
{
    let mut responses = Vec::new(alloc);
    push_fetches(alloc, &mut responses, messages, which, asked)?;
    Ok(Answer::told(responses))
}

/// What a fetch tells in the folder.
fn read_messages(
    alloc: Global,
    folder: &StoredFolder,
    command: &Command,
) -> Result<Answer, AllocError>
    requires { IsStoreFolder folder.now }
    ensures { IfOk result (λ a. (s : StoreSession) → ReadsMessages command.now → selected_folder s ≡ Some folder.now
        → a ≡ answers.ok_answer (ok_reply s command.now)) }
{
    let messages = folder.messages();
    match command {
        Command::FetchFlags => told_of(alloc, messages, Which::All, Asked::Flags),
        Command::FetchSlice { from, to, modseq } => {
            let which = Which::Range {
                from: *from,
                to: *to,
            };
            let asked = Asked::Header {
                with_modseq: *modseq,
            };
            told_of(alloc, messages, which, asked)
        }
        Command::FetchNew { from, modseq } => {
            let which = Which::FromOn {
                from: *from,
                last: greatest_uid(messages),
            };
            let asked = Asked::Header {
                with_modseq: *modseq,
            };
            told_of(alloc, messages, which, asked)
        }
        Command::FetchBody { uid } => {
            told_of(alloc, messages, Which::One { uid: *uid }, Asked::Body)
        }
        _ => Ok(Answer::done(alloc)),
    }
}

/// The octets of the answer under the tag.
fn octets_of(alloc: Global, tag: Bytes, answer: Answer) -> Result<Vec<u8>, AllocError>
    ensures { IfOk result (λ octets. octets.items ≡ text_of_answer tag answer) }
{
    let mut octets = Vec::new(alloc);
    push_responses(&mut octets, &answer.responses)?;
    let tagged = Response::Tagged {
        tag,
        status: answer.status,
        code: answer.code,
    };
    push_response(&mut octets, &tagged)?;
    Ok(octets)
}

/// Adds the texts of responses, one after another.
fn push_responses(octets: &mut Vec<u8>, responses: &[Response]) -> Result<(), AllocError>
    ensures { OnOk result (octets.new.items ≡ octets.old.items ++ flat_map text_of_response responses.now) }
{
    for response in responses {
        push_response(octets, response)?;
    }
    Ok(())
}
