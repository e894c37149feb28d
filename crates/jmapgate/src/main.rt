//! A mail gateway: JMAP for its clients, over the mail of an IMAP store; and messages shown as Email objects.
#![tactic(auto)]

ghost use Rattle.std.specs.Prelude.{◌≡◌, ℕ, List, [], IfOk, OnOk};
ghost use Rattle.gateway.specs.ReadWords.{AreRead};
ghost use Rattle.jmapgate.specs.Clientele.{AreEnded, AreListenedFor};
ghost use Rattle.jmapgate.specs.Devices.{NamesListener, NamesStore, listening_in, store_in, store_text};

use client_front::TcpClients;
use gate_host::{
    Clients, Host, HostWorld, ListenerFront, SessionFront, StandardFront, TcpSessions,
};
use gate_words::{Task, WordsError, read_words};
use gateway::run_read;
use octets::{Bytes, Text};
use std::alloc::{AllocError, Global};
use std::env;
use std::env::VarError;
use std::io::{ErrorKind, Stdin, Stdout};
use std::process::ExitCode;

/// The status of a run that finds no memory to begin with.
const NO_MEMORY: u8 = 5;

fn main(rt: HostRuntime) -> ExitCode {
    match run(rt) {
        Ok(status) => ExitCode::from(status),
        Err(AllocError) => ExitCode::from(NO_MEMORY),
    }
}

/// Whom the program listens for.
#[derive(Drop)]
enum Listening {
    /// Clients that give requests, at this address.
    Requests(Text),
    /// Clients that have sessions, at this address: they may wait to be sent something first.
    Sessions(Text),
    /// Nobody.
    Nobody,
}

/// The clients of the program.
#[derive(Drop)]
enum Clientele {
    /// Those that give requests.
    Requests(ListenerFront<TcpClients, HostRuntime>),
    /// Those that have sessions.
    Sessions(SessionFront<TcpSessions<HostRuntime>>),
    /// The one on standard input and output.
    Standard(StandardFront<Stdin, Stdout>),
}

/// Makes the devices that the words ask for, and runs the gateway over them.
fn run(rt: HostRuntime) -> Result<u8, AllocError> {
    let words = words_of(&rt)?;
    let read = read_words(rt.alloc(), words.as_slice());
    match clientele_of(rt, listening_of(rt.alloc(), &read)?)? {
        Clientele::Requests(front) => run_over(rt, read, front),
        Clientele::Sessions(front) => run_over(rt, read, front),
        Clientele::Standard(front) => run_over(rt, read, front),
    }
}

/// The clients that are listened for, or the one on standard input and output. Where there is no listening at the address, each
/// of the front's calls fails.
fn clientele_of(rt: HostRuntime, listening: Listening) -> Result<Clientele, AllocError>
    ensures { IfOk result (AreListenedFor listening) }
{
    match listening {
        Listening::Requests(address) => {
            let listener = TcpClients::bind(rt.alloc(), &rt, address.as_str());
            let front = ListenerFront::new(rt.alloc(), listener, rt)?;
            Ok(Clientele::Requests(front))
        }
        Listening::Sessions(address) => {
            let listener = TcpSessions::bind(&rt, rt, address.as_str());
            Ok(Clientele::Sessions(SessionFront::new(listener)))
        }
        Listening::Nobody => Ok(Clientele::Standard(StandardFront::new(rt.input(), rt.output()))),
    }
}

/// Runs the gateway for these clients.
fn run_over<C: Clients>(
    rt: HostRuntime,
    read: Result<Task, WordsError>,
    front: C,
) -> Result<u8, AllocError> {
    let store = store_of(rt.alloc(), &read)?;
    let password = variable(&rt, "JMAPGATE_PASSWORD")?;
    let token = variable(&rt, "JMAPGATE_TOKEN")?;
    let mut world = HostWorld::new(rt, store, front, password, token);
    Ok(run_to_end(rt.alloc(), read, &mut world))
}

/// Runs the gateway, and waits for the clients whose response has ended, which the program's end would close.
fn run_to_end<C: Clients>(
    alloc: Global,
    read: Result<Task, WordsError>,
    world: &mut HostWorld<HostRuntime, C>,
) -> u8
    ensures { AreEnded C.ends world.new.front }
{
    let status = run_read(alloc, read, world);
    world.front.end();
    status
}

/// The words after the program's name. Where one of them is no UTF-8 there are none, which are refused as well.
fn words_of(rt: &HostRuntime) -> Result<Vec<String>, AllocError> {
    let mut words = Vec::new(rt.alloc());
    match env::args(rt) {
        Ok(all) => {
            for word in all.skip(1) {
                words.push(word)?;
            }
            Ok(words)
        }
        Err(error) if error.kind() == ErrorKind::OutOfMemory => Err(AllocError),
        Err(_) => Ok(words),
    }
}

fn no_store(alloc: Global) -> Text
    ensures { result ≡ [] }
{
    Text::from_string(String::new(alloc))
}

/// Out of memory, or that the words were refused.
fn refused(error: WordsError) -> Result<(), AllocError>
    ensures { OnOk result (error ≡ WordsError.Refused) }
{
    match error {
        WordsError::Refused => Ok(()),
        WordsError::Memory => Err(AllocError),
    }
}

/// The store that a task dials. Where it dials none it is empty, and nobody dials it.
fn task_store(alloc: Global, task: &Task) -> Result<Text, AllocError>
    ensures { IfOk result (λ store. store ≡ store_text (store_in task.now)) }
{
    match task {
        Task::Serve { place, .. } => Text::copy_of(alloc, place.store.as_str()),
        Task::Once { place } => Text::copy_of(alloc, place.store.as_str()),
        Task::Show => Ok(no_store(alloc)),
        Task::Store { .. } => Ok(no_store(alloc)),
        Task::Check { store, .. } => Text::copy_of(alloc, store.as_str()),
        Task::Explain { .. } => Ok(no_store(alloc)),
    }
}

/// The store of words that were read so: that of their task, and none where they were refused.
fn store_of(alloc: Global, read: &Result<Task, WordsError>) -> Result<Text, AllocError>
    ensures { IfOk result (λ store. (words : List (List ℕ)) → AreRead words read.now → NamesStore words store) }
{
    match read {
        Ok(task) => task_store(alloc, task),
        Err(error) => {
            refused(*error)?;
            Ok(no_store(alloc))
        }
    }
}

/// Whom a task listens for: for clients in `serve` and `store` alone, each at its address.
fn task_listening(alloc: Global, task: &Task) -> Result<Listening, AllocError>
    ensures { IfOk result (λ listening. listening ≡ listening_in task.now) }
{
    match task {
        Task::Serve { listen, .. } => {
            let address = Text::copy_of(alloc, listen.as_str())?;
            Ok(Listening::Requests(address))
        }
        Task::Once { .. } => Ok(Listening::Nobody),
        Task::Show => Ok(Listening::Nobody),
        Task::Store { listen, .. } => {
            let address = Text::copy_of(alloc, listen.as_str())?;
            Ok(Listening::Sessions(address))
        }
        Task::Check { .. } => Ok(Listening::Nobody),
        Task::Explain { .. } => Ok(Listening::Nobody),
    }
}

/// Whom the program listens for by words that were read so: for nobody where they were refused.
fn listening_of(alloc: Global, read: &Result<Task, WordsError>) -> Result<Listening, AllocError>
    ensures { IfOk result (λ listening. (words : List (List ℕ)) → AreRead words read.now → NamesListener words listening) }
{
    match read {
        Ok(task) => task_listening(alloc, task),
        Err(error) => {
            refused(*error)?;
            Ok(Listening::Nobody)
        }
    }
}

/// A variable of the environment. One that is not there, or is no UTF-8, is empty.
fn variable(rt: &HostRuntime, name: &str) -> Result<Bytes, AllocError> {
    match env::var(rt, name) {
        Ok(text) => Ok(Bytes::from_vec(text.into_bytes())?),
        Err(VarError::OutOfMemory) => Err(AllocError),
        Err(VarError::NotPresent | VarError::NotUnicode) => {
            Ok(Bytes::from_vec(Vec::new(rt.alloc()))?)
        }
    }
}
