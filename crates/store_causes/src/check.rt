// A store is checked.
ghost use Rattle.std.specs.Prelude.{◌≡◌, IfOk, true, false};
ghost use Rattle.gate_world.specs.Causes.{LinkAlone, Rose};
ghost use Rattle.gate_world.specs.Tape.{Adds};
ghost use Rattle.imap_client.specs.LinkLife.{LinkLife, Stands};
ghost use Rattle.store_causes.specs.Causes.{loses_link};
ghost use Rattle.store_causes.specs.Checks.{AsksStore, Checks, IsCauseAlone, Meets};
ghost use Rattle.store_causes.specs.reading.Following.{GreetingFinds, unanswered_greeting};
ghost use Rattle.store_causes.specs.reading.Rounding.{ReadsTo};

use crate::answers::unanswered;
use crate::asking::ask_all;
use crate::beginning::beginning_by;
use crate::cause::{Asked, StoreCause};
use crate::notes::Notes;
use crate::rounds::{RoundFound, ask_round};
use crate::watched::Watched;
use gate_world::{Link, Secrets};
use imap_client::{Client, Connection, LinkEnd, Stage, refusals_stop};
use imap_exchange::Received;
use octets::Bytes;
use std::alloc::{AllocError, Global};
use told_mail::Mirror;

/// What is found out about a store.
#[derive(Drop)]
pub struct Checked {
    /// Whether the greeting was PREAUTH; none where no greeting let the client in.
    pub preauth: Option<bool>,
    /// Whether the user is let in: by PREAUTH, or by LOGIN.
    pub let_in: bool,
    /// Whether the store told SPECIAL-USE once a client was connected.
    pub special_use: bool,
    /// The mail that was told in the first round.
    pub mirror: Mirror,
    /// None where the store can be used.
    pub cause: Option<StoreCause>,
    /// Whether a first round was done, so that the cause comes of the second.
    pub again: bool,
    /// Where the cause is that octets can't be read: how they begin, up to an end of a line, a quoted string or a literal. None after LOGIN,
    /// where they don't begin as a response does, and where the password begins among them.
    pub beginning: Option<Bytes>,
}

// Nothing but a cause, and how octets begin that can't be read.
fn cause_alone(alloc: Global, cause: StoreCause, beginning: Option<Bytes>) -> Checked
    ensures { IsCauseAlone cause beginning result }
{
    Checked {
        preauth: None,
        let_in: false,
        special_use: false,
        mirror: Mirror::new(alloc),
        cause: Some(cause),
        again: false,
        beginning,
    }
}

// What connects a client.
fn connection(alloc: Global, user: &[u8], password: &[u8]) -> Result<Connection, AllocError>
    ensures stage { IfOk result (λ c. c.stage ≡ Stage.Asking) }
    ensures user { IfOk result (λ c. c.user ≡ user.now) }
    ensures password { IfOk result (λ c. c.password ≡ password.now) }
{
    Ok(Connection {
        stage: Stage::Asking,
        preauth: false,
        user: Bytes::copy_of(alloc, user)?,
        password: Bytes::copy_of(alloc, password)?,
    })
}

// Two rounds over all folders, once a client is connected, of which this is known: the second one after the mail that the first told.
fn read_mail<L: Link>(
    alloc: Global,
    client: &mut Client,
    link: &mut L,
    password: &[u8],
    preauth: bool,
    notes: Notes,
) -> Result<Checked, AllocError>
    requires alive { client.old.alive ≡ true }
    requires lost { loses_link notes.cause ≡ false }
    ensures tape { Adds (L.tape link.old) (L.tape link.new) (λ es. (life : LinkLife) → Stands client.old life → (left : LinkLife)
        × ReadsTo password.now preauth notes life left client.new es result) }
    ensures alone { LinkAlone (L.faults link.old) (L.faults link.new) }
    ensures cause { IfOk result (λ k. loses_link k.cause ≡ true → Rose (L.faults link.old).link (L.faults link.new).link) }
    ensures hidden { L.hidden link.new ≡ L.hidden link.old }
{
    let let_in = notes.let_in;
    let special_use = client.special_use();
    let first = ask_round(
        alloc,
        client,
        link,
        password,
        special_use,
        Mirror::new(alloc),
        notes,
    )?;
    let RoundFound {
        notes,
        mirror,
        cause,
        beginning,
    } = first;
    if !client.alive() {
        return Ok(Checked {
            preauth: Some(preauth),
            let_in,
            special_use,
            mirror,
            cause,
            again: false,
            beginning,
        });
    }
    let again = ask_round(
        alloc,
        client,
        link,
        password,
        special_use,
        mirror.copy()?,
        notes,
    )?;
    let RoundFound {
        cause,
        beginning,
        ..
    } = again;
    Ok(Checked {
        preauth: Some(preauth),
        let_in,
        special_use,
        mirror,
        cause,
        again: true,
        beginning,
    })
}

// What is asked after the greeting.
fn ask_store<L: Link>(
    alloc: Global,
    client: &mut Client,
    link: &mut L,
    password: &[u8],
    connection: Connection,
) -> Result<Checked, AllocError>
    requires alive { client.old.alive ≡ true }
    requires stage { connection.stage ≡ Stage.Asking }
    requires password { connection.password ≡ password.now }
    ensures tape { Adds (L.tape link.old) (L.tape link.new) (λ es. (life : LinkLife) → Stands client.old life → (left : LinkLife)
        × AsksStore connection.preauth connection.user connection.password life left client.new es result) }
    ensures alone { LinkAlone (L.faults link.old) (L.faults link.new) }
    ensures cause { IfOk result (λ k. loses_link k.cause ≡ true → Rose (L.faults link.old).link (L.faults link.new).link) }
    ensures hidden { L.hidden link.new ≡ L.hidden link.old }
{
    refusals_stop();
    let preauth = connection.preauth;
    let mut plan = Watched {
        inner: connection,
        notes: Notes::new(preauth),
    };
    let mut unread = Received::new(alloc);
    let cause = ask_all(alloc, client, link, &mut plan, &mut unread)?;
    let Watched { notes, .. } = plan;
    if !client.alive() {
        let beginning = beginning_by(alloc, &cause, password, unread.as_slice())?;
        return Ok(Checked {
            preauth: Some(preauth),
            let_in: notes.let_in,
            special_use: false,
            mirror: Mirror::new(alloc),
            cause,
            again: false,
            beginning,
        });
    }
    read_mail(alloc, client, link, password, preauth, notes)
}

// Where no greeting lets the client in, and these octets stayed unread: the cause; an error where memory ran out.
fn unwelcome(
    alloc: Global,
    end: LinkEnd,
    password: &[u8],
    unread: &[u8],
) -> Result<Checked, AllocError>
    ensures { GreetingFinds password.now (unanswered_greeting end) unread.now result }
{
    let cause = unanswered(Asked::Greeting, end);
    let beginning = beginning_by(alloc, &cause, password, unread)?;
    match cause {
        Some(cause) => Ok(cause_alone(alloc, cause, beginning)),
        None => Err(AllocError),
    }
}

// The greeting, and then what is asked; the life ends.
fn meet<L: Link>(
    alloc: Global,
    link: &mut L,
    password: &[u8],
    connection: Connection,
) -> Result<Checked, AllocError>
    requires stage { connection.stage ≡ Stage.Asking }
    requires password { connection.password ≡ password.now }
    ensures tape { Adds (L.tape link.old) (L.tape link.new) (Meets connection.user connection.password result) }
    ensures alone { LinkAlone (L.faults link.old) (L.faults link.new) }
    ensures cause { IfOk result (λ k. loses_link k.cause ≡ true → Rose (L.faults link.old).link (L.faults link.new).link) }
    ensures hidden { L.hidden link.new ≡ L.hidden link.old }
{
    let mut client = Client::new(alloc);
    let mut unread = Received::new(alloc);
    match client.read_greeting_keeping(link, &mut unread) {
        Ok(preauth) => {
            let mut connection = connection;
            connection.preauth = preauth;
            let checked = ask_store(alloc, &mut client, link, password, connection);
            client.leave(link);
            checked
        }
        Err(end) => unwelcome(alloc, end, password, unread.as_slice()),
    }
}

/// Asks a store in one link life what serving asks: what connects a client, and then two rounds over all folders, of which the second
/// asks what is new since the first.
pub fn check_store<W: Link + Secrets>(
    alloc: Global,
    world: &mut W,
    user: &[u8],
) -> Result<Checked, AllocError>
    ensures tape { Adds (W.tape world.old) (W.tape world.new) (Checks user.now (W.hidden world.old).password result) }
    ensures alone { LinkAlone (W.faults world.old) (W.faults world.new) }
    ensures cause { IfOk result (λ k. loses_link k.cause ≡ true → Rose (W.faults world.old).link (W.faults world.new).link) }
    ensures hidden { W.hidden world.new ≡ W.hidden world.old }
{
    let connection = connection(alloc, user, world.password())?;
    let password = connection.password.share()?;
    match world.dial() {
        Ok(()) => meet(alloc, world, password.as_slice(), connection),
        Err(_) => Ok(cause_alone(alloc, StoreCause::Unreached, None)),
    }
}
