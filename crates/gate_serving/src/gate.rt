// What answers one client after another.
ghost use Rattle.std.specs.Prelude.{◌≡◌, ◌≢◌, ◌⊎◌, [], List, IfOk, IsSome, OnOk, OnErr, Some, None, Err};
ghost use Rattle.std.specs.Option.{option_copied};
ghost use Rattle.gate_world.specs.Causes.{Faults, FrontAlone, Hidden, Later, LinkAlone, NoFault, Rose};
ghost use Rattle.gate_world.specs.Tape.{Adds};
ghost use Rattle.jmap_core.specs.Request.{request_data};
ghost use Rattle.result_references.specs.Call.{CallData};
ghost use Rattle.gate_machine.specs.Holding.{unready};
ghost use Rattle.gate_machine.specs.Progress.{CameTo, Progress};
ghost use Rattle.gate_machine.specs.declared.mail_status.MailFailure.{MailFailure};
ghost use Rattle.gate_machine.specs.declared.mail_status.MailStatus.TheVariants.{Unserved, Stands};
ghost use Rattle.gate_calls.specs.Calls.{AnswersCalls};
ghost use Rattle.gate_calls.specs.Mailings.{error_of as error_meant, mail_at};
ghost use Rattle.gate_serving.specs.GateState.{GateState, unready_state};
ghost use Rattle.gate_serving.specs.Answers.{Answer, MayKeepUpload, TakesMemory, calls_text, json_answer, no_memory_text, spelled};
ghost use Rattle.gate_serving.specs.Doing.{Does};
ghost use Rattle.gate_serving.specs.Run.{AddsSegment, account_of};
ghost use Rattle.gate_serving.specs.declared.door.Door.TheVariants.{Bare};
ghost use Rattle.gate_serving.specs.reading.Askings.{asking_data, at_once_data, over_mail_data};
ghost use Rattle.gate_serving.specs.Gates.{Comes, GateHolds, OpensTo, RestStays, account_by};
ghost use Rattle.gate_serving.specs.Segment.{went};
ghost use Rattle.gate_serving.specs.Requests as spec;
ghost use Rattle.gate_serving.specs.reading.Replying.{AnswersTo, Finishes, MakesAtOnce, RepliesBy, RepliesToAsking, SendsReply, Serves};
ghost use Rattle.gate_serving.specs.reading.Texts.{text_sent};

use crate::account::Account;
use crate::answers::{
    calls_response, problem_response, session_response, told_response, untold_response,
    upload_response,
};
use crate::asking::{Asking, AskingAtOnce, AskingOverMail};
use crate::door::Door;
use crate::outcomes::ClientOutcome;
use crate::reading::read_asking;
use crate::response::Response;
use crate::upload::Upload;
use blob_store::BlobStore;
use gate_calls::{NoMail, RequestMail, error_of};
use gate_machine::{Machine, MailStatus, begin};
use gate_words::Place;
use gate_world::{Failed, Front, World};
use http_requests::AskError;
use http_routes::Routes;
use http_service::Refusal;
use imap_client::Client;
use jmap_arguments::MethodError;
use jmap_core::Request;
use octets::Bytes;
use std::alloc::{AllocError, Global};
use std::mem;

/// Answers one client after another.
#[derive(Drop)]
pub struct Gate {
    door: Door,
    account: Account,
    /// What is asked over HTTP is found by them.
    routes: Routes,
    machine: Machine,
    uploads: BlobStore,
}

impl Gate {
    /// A gate at this door: an epoch is drawn.
    pub fn open<W: World>(
        alloc: Global,
        world: &mut W,
        door: Door,
        place: &Place,
    ) -> Result<Gate, AllocError>
        ensures run { Adds (W.tape world.old) (W.tape world.new) (OpensTo result) }
        ensures door { IfOk result (λ gate. gate.door ≡ door) }
        ensures account { IfOk result (λ gate. account_by gate (W.hidden world.old) ≡ account_of place.now (W.hidden world.old)) }
        ensures cause { NoFault (W.faults world.old) (W.faults world.new) }
        ensures hidden { W.hidden world.new ≡ W.hidden world.old }
    {
        let (account, routes) = parts_of(alloc, place)?;
        let epoch = world.word();
        let machine = Machine::opened(alloc, epoch)?;
        Ok(Gate {
            door,
            account,
            routes,
            machine,
            uploads: BlobStore::new(alloc),
        })
    }

    /// Answers one client, where one comes.
    pub fn answer_one<W: World>(&mut self, alloc: Global, world: &mut W) -> ClientOutcome
        ensures run { Adds (W.tape world.old) (W.tape world.new)
            (Comes self.old self.new (λ s t. AddsSegment self.old.door (account_by self.old (W.hidden world.old)) s t (W.faults world.old) (W.faults world.new) result)) }
        ensures rest { RestStays self.old self.new }
        ensures later { Later (W.faults world.old) (W.faults world.new) }
        ensures accepting { result ≡ ClientOutcome.AcceptFault → Rose (W.faults world.old).front (W.faults world.new).front }
        ensures part { self.old.door ≡ Bare → result ≡ ClientOutcome.Part → Rose (W.faults world.old).front (W.faults world.new).front }
        ensures hidden { W.hidden world.new ≡ W.hidden world.old }
    {
        match world.accept() {
            Err(_) => ClientOutcome::AcceptFault,
            Ok(false) => ClientOutcome::NoMore,
            Ok(true) => self.answer_client(alloc, world),
        }
    }

    // A client that came: what it asks is read, the mail is begun over where that needs it, its calls are answered in order, the link life
    // ends, and the answer is sent.
    fn answer_client<W: World>(&mut self, alloc: Global, world: &mut W) -> ClientOutcome
        ensures run { Adds (W.tape world.old) (W.tape world.new)
            (Comes self.old self.new (λ s t. Serves self.old.door (account_by self.old (W.hidden world.old)) s t (W.faults world.old) (W.faults world.new) result)) }
        ensures rest { RestStays self.old self.new }
        ensures later { Later (W.faults world.old) (W.faults world.new) }
        ensures came { (result ≡ ClientOutcome.Whole) ⊎ (result ≡ ClientOutcome.Part) }
        ensures part { self.old.door ≡ Bare → result ≡ ClientOutcome.Part → Rose (W.faults world.old).front (W.faults world.new).front }
        ensures hidden { W.hidden world.new ≡ W.hidden world.old }
    {
        let reply = self.reply(alloc, world);
        let served = send_reply(world, &reply);
        world.finish();
        served
    }

    // Reads what the client asks and makes the response to it, where it gets one. Its link life is over before that.
    fn reply<W: World>(&mut self, alloc: Global, world: &mut W) -> Option<Response>
        ensures run { Adds (W.tape world.old) (W.tape world.new)
            (Comes self.old self.new (λ s t. RepliesBy self.old.door (account_by self.old (W.hidden world.old)) s t (W.faults world.old) (W.faults world.new) result)) }
        ensures rest { RestStays self.old self.new }
        ensures later { Later (W.faults world.old) (W.faults world.new) }
        ensures none { self.old.door ≡ Bare → result ≡ None → Rose (W.faults world.old).front (W.faults world.new).front }
        ensures hidden { W.hidden world.new ≡ W.hidden world.old }
    {
        match read_asking(alloc, world, self.door, &self.routes) {
            Ok(asking) => Some(self.answer(alloc, world, asking)),
            Err(AskError::Memory) => Some(self.lack()),
            Err(AskError::Ended) => None,
            Err(AskError::Failed) => None,
        }
    }

    // The response to what is asked.
    fn answer<W: World>(&mut self, alloc: Global, world: &mut W, asking: Asking) -> Response
        ensures run { Adds (W.tape world.old) (W.tape world.new)
            (Comes self.old self.new (λ s t. RepliesToAsking self.old.door (account_by self.old (W.hidden world.old)) (asking_data asking) s t
            (W.faults world.old) (W.faults world.new) (text_sent result))) }
        ensures rest { RestStays self.old self.new }
        ensures alone { LinkAlone (W.faults world.old) (W.faults world.new) }
        ensures hidden { W.hidden world.new ≡ W.hidden world.old }
    {
        match self.try_answer(alloc, world, asking) {
            Ok(response) => response,
            Err(_) => self.lack(),
        }
    }

    // The same, where there is memory for it.
    fn try_answer<W: World>(
        &mut self,
        alloc: Global,
        world: &mut W,
        asking: Asking,
    ) -> Result<Response, AllocError>
        ensures run { Adds (W.tape world.old) (W.tape world.new)
            (Comes self.old self.new (λ s t. AnswersTo self.old.door (account_by self.old (W.hidden world.old)) (asking_data asking) s t
            (W.faults world.old) (W.faults world.new) result)) }
        ensures rest { RestStays self.old self.new }
        ensures alone { LinkAlone (W.faults world.old) (W.faults world.new) }
        ensures hidden { W.hidden world.new ≡ W.hidden world.old }
    {
        match asking {
            Asking::AtOnce(asking) => self.answer_at_once(alloc, world, asking),
            Asking::OverMail(asking) => self.answer_over_mail(alloc, world, asking),
        }
    }

    // Where the mail is needed: the way to the mail, the answer over it, and the end of the link life.
    fn answer_over_mail<W: World>(
        &mut self,
        alloc: Global,
        world: &mut W,
        asking: AskingOverMail,
    ) -> Result<Response, AllocError>
        ensures run { Adds (W.tape world.old) (W.tape world.new)
            (Comes self.old self.new (λ s t. AnswersTo self.old.door (account_by self.old (W.hidden world.old)) (over_mail_data asking) s t
            (W.faults world.old) (W.faults world.new) result)) }
        ensures rest { RestStays self.old self.new }
        ensures alone { LinkAlone (W.faults world.old) (W.faults world.new) }
        ensures hidden { W.hidden world.new ≡ W.hidden world.old }
    {
        let mut client = Client::new(alloc);
        let user = self.account.user.as_str().as_bytes();
        match begin(alloc, &mut self.machine, &mut client, world, user) {
            MailStatus::Stands => self.answer_told(alloc, client, world, asking),
            MailStatus::Unserved(why) => {
                self.answer_untold(alloc, client, world, asking, error_of(why))
            }
            MailStatus::OutOfMemory => {
                client.leave(world);
                self.unless_lacking(Err(AllocError))
            }
        }
    }

    // Over the mail that was told in the client's link life, which is over after it.
    fn answer_told<W: World>(
        &mut self,
        alloc: Global,
        client: Client,
        world: &mut W,
        asking: AskingOverMail,
    ) -> Result<Response, AllocError>
        requires { IsSome self.old.machine.known }
        ensures run { Adds (W.tape world.old) (W.tape world.new) (λ es. (p : Progress) (was : Faults)
            → CameTo self.old.machine client Stands was (W.faults world.old) p → IsSome p.left
            → Finishes self.old.door (account_by self.old (W.hidden world.old)) self.old.uploads (over_mail_data asking) p self.new.machine was
            (W.faults world.new) result es) }
        ensures rest { RestStays self.old self.new }
        ensures uploads { self.new.uploads ≡ self.old.uploads }
        ensures alone { LinkAlone (W.faults world.old) (W.faults world.new) }
        ensures hidden { W.hidden world.new ≡ W.hidden world.old }
    {
        match asking {
            AskingOverMail::Calls(calls) => self.answer_calls(alloc, client, world, calls.request),
            AskingOverMail::Download { blob, media } => {
                self.answer_download(alloc, client, world, blob.as_slice(), media_of(&media))
            }
        }
    }

    // The same for method calls, which have the machine until they are answered.
    fn answer_calls<W: World>(
        &mut self,
        alloc: Global,
        client: Client,
        world: &mut W,
        request: Request,
    ) -> Result<Response, AllocError>
        ensures run { Adds (W.tape world.old) (W.tape world.new) (λ es. (p : Progress) (was : Faults)
            → CameTo self.old.machine client Stands was (W.faults world.old) p → IsSome p.left
            → Finishes self.old.door (account_by self.old (W.hidden world.old)) self.old.uploads (spec.Calls (request_data request)) p self.new.machine was
            (W.faults world.new) result es) }
        ensures rest { RestStays self.old self.new }
        ensures uploads { self.new.uploads ≡ self.old.uploads }
        ensures alone { LinkAlone (W.faults world.old) (W.faults world.new) }
        ensures hidden { W.hidden world.new ≡ W.hidden world.old }
    {
        let machine = mem::replace(&mut self.machine, Machine { known: None });
        let mut mail = RequestMail {
            machine,
            client,
            status: MailStatus::Stands,
        };
        let made = calls_response(
            alloc,
            self.door,
            &self.account,
            &mut mail,
            world,
            &self.uploads,
            request,
        );
        let RequestMail {
            machine,
            mut client,
            ..
        } = mail;
        self.machine = machine;
        client.leave(world);
        self.unless_lacking(made)
    }

    // The same for a download.
    fn answer_download<W: World>(
        &mut self,
        alloc: Global,
        client: Client,
        world: &mut W,
        blob: &[u8],
        media: Option<&[u8]>,
    ) -> Result<Response, AllocError>
        requires { IsSome self.old.machine.known }
        ensures run { Adds (W.tape world.old) (W.tape world.new) (λ es. (p : Progress) (was : Faults)
            → CameTo self.old.machine client Stands was (W.faults world.old) p
            → Finishes self.old.door (account_by self.old (W.hidden world.old)) self.old.uploads (spec.Download blob.now (option_copied media.entry)) p
            self.new.machine was (W.faults world.new) result es) }
        ensures rest { RestStays self.old self.new }
        ensures uploads { self.new.uploads ≡ self.old.uploads }
        ensures alone { LinkAlone (W.faults world.old) (W.faults world.new) }
        ensures hidden { W.hidden world.new ≡ W.hidden world.old }
    {
        let (served, mut fetching) = self.machine.lend(client);
        let made = told_response(
            alloc,
            self.door,
            served.state(),
            &self.uploads,
            &mut fetching,
            world,
            blob,
            media,
        );
        let mut client = self.machine.take_back(served, fetching);
        client.leave(world);
        self.unless_lacking(made)
    }

    // Where the mail can't be told; the client's link life is over after it.
    fn answer_untold<W: World>(
        &mut self,
        alloc: Global,
        client: Client,
        world: &mut W,
        asking: AskingOverMail,
        error: MethodError,
    ) -> Result<Response, AllocError>
        ensures run { Adds (W.tape world.old) (W.tape world.new) (λ es. (p : Progress) (was : Faults) (how : MailFailure)
            → CameTo self.old.machine client (Unserved how) was (W.faults world.old) p → error ≡ error_meant how
            → Finishes self.old.door (account_by self.old (W.hidden world.old)) self.old.uploads (over_mail_data asking) p self.new.machine was
            (W.faults world.new) result es) }
        ensures rest { RestStays self.old self.new }
        ensures uploads { self.new.uploads ≡ self.old.uploads }
        ensures alone { LinkAlone (W.faults world.old) (W.faults world.new) }
        ensures hidden { W.hidden world.new ≡ W.hidden world.old }
    {
        let mut client = client;
        client.leave(world);
        let made = self.response_untold(alloc, world, asking, error);
        self.unless_lacking(made)
    }

    // The response where the mail can't be told.
    fn response_untold<W>(
        &self,
        alloc: Global,
        world: &mut W,
        asking: AskingOverMail,
        error: MethodError,
    ) -> Result<Response, AllocError>
        ensures made { IfOk result (λ r. (secrets : Hidden) (p : Progress) → mail_at p ≡ Err error → (answer : Answer)
            × Does (account_by self.now secrets) self.now.uploads (over_mail_data asking) p [] p (Some answer) × (text_sent r ≡ spelled self.now.door answer)) }
        ensures world { world.new ≡ world.old }
    {
        match asking {
            AskingOverMail::Calls(calls) => self.calls_without(alloc, world, calls.request, error),
            AskingOverMail::Download { .. } => untold_response(alloc, self.door),
        }
    }

    // Where there was no memory for a response the machine isn't ready.
    fn unless_lacking(&mut self, made: Result<Response, AllocError>) -> Result<Response, AllocError>
        ensures made { result ≡ made }
        ensures ok { OnOk result (self.new ≡ self.old) }
        ensures err { OnErr result (self.new ≡ record self.old { machine = unready self.old.machine }) }
    {
        if made.is_err() {
            self.machine.forget();
        }
        made
    }

    // Where no mail is needed.
    fn answer_at_once<W: World>(
        &mut self,
        alloc: Global,
        world: &mut W,
        asking: AskingAtOnce,
    ) -> Result<Response, AllocError>
        ensures run { (s : GateState) → GateHolds s self.old → (t : GateState) × GateHolds t self.new
            × AnswersTo self.old.door (account_by self.old (W.hidden world.old)) (at_once_data asking) s t (W.faults world.old) (W.faults world.old) result [] }
        ensures rest { RestStays self.old self.new }
        ensures world { world.new ≡ world.old }
    {
        let made = self.response(alloc, world, asking);
        self.unless_lacking(made)
    }

    // The response where no mail is needed: what is uploaded is kept. What is refused takes no memory.
    fn response<W>(
        &mut self,
        alloc: Global,
        world: &mut W,
        asking: AskingAtOnce,
    ) -> Result<Response, AllocError>
        ensures made { IfOk result (MakesAtOnce (at_once_data asking) self.old self.new) }
        ensures may { MayKeepUpload (at_once_data asking) self.old.uploads self.new.uploads }
        ensures takes { OnErr result (TakesMemory (at_once_data asking)) }
        ensures rest { RestStays self.old self.new }
        ensures machine { self.new.machine ≡ self.old.machine }
        ensures world { world.new ≡ world.old }
    {
        match asking {
            AskingAtOnce::Calls(calls) => {
                let error = MethodError::ServerUnavailable;
                self.calls_without(alloc, world, calls.request, error)
            }
            AskingAtOnce::Problem(error) => problem_response(alloc, self.door, error),
            AskingAtOnce::Session => session_response(alloc, self.door, &self.account),
            AskingAtOnce::Upload(upload) => self.keep(alloc, &upload),
            AskingAtOnce::Refused(refusal) => Ok(Response::empty(self.door, refusal)),
        }
    }

    // Keeps what is uploaded, and tells its id.
    fn keep(&mut self, alloc: Global, upload: &Upload) -> Result<Response, AllocError>
        ensures made { IfOk result (MakesAtOnce (spec.Upload upload.now.media upload.now.octets) self.old self.new) }
        ensures may { MayKeepUpload (spec.Upload upload.now.media upload.now.octets) self.old.uploads self.new.uploads }
        ensures rest { RestStays self.old self.new }
        ensures machine { self.new.machine ≡ self.old.machine }
    {
        match self.uploads.put(upload.octets.as_slice()) {
            Ok(id) => upload_response(alloc, self.door, upload, &id),
            Err(_) => Err(AllocError),
        }
    }

    // The response to calls without mail: each that needs it has this error.
    fn calls_without<W>(
        &self,
        alloc: Global,
        world: &mut W,
        request: Request,
        error: MethodError,
    ) -> Result<Response, AllocError>
        ensures made { IfOk result (λ r. (responses : List CallData)
            × AnswersCalls (request_data request).uses (record { mail = Err error; uploads = self.now.uploads }) (request_data request).calls [] responses
            × ((secrets : Hidden) → text_sent r ≡ spelled self.now.door (json_answer 200 (calls_text (account_by self.now secrets).user (account_by self.now secrets).base
            responses (request_data request).created)))) }
        ensures world { world.new ≡ world.old }
    {
        calls_response(
            alloc,
            self.door,
            &self.account,
            &mut NoMail { error },
            world,
            &self.uploads,
            request,
        )
    }

    // Out of memory: the machine isn't ready.
    fn lack(&mut self) -> Response
        ensures text { text_sent result ≡ no_memory_text self.old.door }
        ensures state { (s : GateState) → GateHolds s self.old → GateHolds (unready_state s) self.new }
        ensures rest { RestStays self.old self.new }
    {
        self.machine.forget();
        Response::empty(self.door, Refusal::Unavailable)
    }
}

fn media_of(media: &Option<Bytes>) -> Option<&[u8]>
    ensures { option_copied result ≡ media.now }
{
    match media {
        Some(media) => Some(media.as_slice()),
        None => None,
    }
}

// The account and the routes.
fn parts_of(alloc: Global, place: &Place) -> Result<(Account, Routes), AllocError>
    ensures user { IfOk result (λ parts. parts.0.user ≡ place.now.user) }
    ensures base { IfOk result (λ parts. parts.0.base ≡ place.now.base) }
{
    let account = Account::at(alloc, place)?;
    let routes = Routes::new(alloc)?;
    Ok((account, routes))
}

// Sends the reply, where there is one.
fn send_reply<F: Front>(front: &mut F, reply: &Option<Response>) -> ClientOutcome
    ensures tape { Adds (F.tape front.old) (F.tape front.new) (SendsReply reply.now result) }
    ensures alone { FrontAlone (F.faults front.old) (F.faults front.new) }
    ensures cause { result ≢ ClientOutcome.Whole → (reply.now ≡ None) ⊎ Rose (F.faults front.old).front (F.faults front.new).front }
    ensures came { (result ≡ ClientOutcome.Whole) ⊎ (result ≡ ClientOutcome.Part) }
    ensures hidden { F.hidden front.new ≡ F.hidden front.old }
{
    match reply {
        Some(response) => served_by(response.send(front)),
        None => ClientOutcome::Part,
    }
}

fn served_by(sent: Result<(), Failed>) -> ClientOutcome
    ensures { result ≡ went sent }
{
    match sent {
        Ok(()) => ClientOutcome::Whole,
        Err(_) => ClientOutcome::Part,
    }
}
