// The session of one client.
ghost use Rattle.std.specs.Prelude.{◌≡◌, ◌+◌, ◌<◌, ◌≤◌, length, IfOk, IsErrOf, Ok};
ghost use Rattle.gate_world.specs.Causes.{FrontAlone, Rose};
ghost use Rattle.gate_world.specs.Tape.{Adds};
ghost use Rattle.small_responses.specs.Tellable.{IsTellableMail};
ghost use Rattle.store_sessions.specs.Sessions as spec;
ghost use Rattle.store_sessions.specs.Sessions.{GreetsClient, ServesClient, Session, Steps};
ghost use Rattle.store_sessions.specs.declared.next.Next.TheVariants as next;
ghost use Rattle.store_sessions.specs.reading.Fills.{Receives};

use crate::command_store::CommandStore;
use crate::next::{Next, SessionError};
use crate::turn::{Turn, take_turn};
use gate_world::{Front, MAX_FILL_OCTETS, Unread, send_all};
use std::alloc::Global;

/// What a client is greeted with (RFC 9051 section 7.1.1).
pub const GREETING: &[u8] = b"* OK ready\r\n";

/// The most octets that one client may give.
const OCTET_LIMIT: u64 = 1_099_511_627_776;

/// How the session goes on.
fn next_of(turn: &Turn) -> Next
    ensures { result ≡ spec.next_of turn.now }
{
    match turn {
        Turn::Answer { .. } => Next::Read,
        Turn::GoAhead => Next::Wait,
        Turn::Wait => Next::Wait,
        Turn::End => Next::End,
    }
}

/// Reads what stands unread once, and tells the client what comes of it.
fn step<S: CommandStore, F: Front>(
    alloc: Global,
    store: &mut S,
    front: &mut F,
    unread: &mut Unread,
) -> Result<Next, SessionError>
    requires mail { IsTellableMail (S.session store.old).mail }
    ensures tape { Adds (F.tape front.old) (F.tape front.new) (Steps (S.session store.old) unread.old (S.session store.new) unread.new result) }
    ensures shorter { result ≡ Ok next.Read → length unread.new < length unread.old }
    ensures same { result ≡ Ok next.Wait → unread.new ≡ unread.old }
    ensures mail { IsTellableMail (S.session store.new).mail }
    ensures alone { FrontAlone (F.faults front.old) (F.faults front.new) }
    ensures cause { IsErrOf result SessionError.Failed → Rose (F.faults front.old).front (F.faults front.new).front }
    ensures hidden { F.hidden front.new ≡ F.hidden front.old }
{
    let taken = take_turn(alloc, store, unread.as_slice())?;
    unread.skip(taken.length());
    send_all(front, taken.octets())?;
    Ok(next_of(&taken))
}

/// Waits for octets, at most so many; how many came, 0 where the client ended its input.
fn receive<F: Front>(front: &mut F, unread: &mut Unread, most: u64) -> Result<u64, SessionError>
    requires { 0 < most }
    ensures bound { IfOk result (λ count. count ≤ most) }
    ensures length { IfOk result (λ count. length unread.new ≡ length unread.old + count) }
    ensures tape { Adds (F.tape front.old) (F.tape front.new) (Receives unread.old unread.new result) }
    ensures alone { FrontAlone (F.faults front.old) (F.faults front.new) }
    ensures cause { IsErrOf result SessionError.Failed → Rose (F.faults front.old).front (F.faults front.new).front }
    ensures hidden { F.hidden front.new ≡ F.hidden front.old }
{
    let before = unread.as_slice().len();
    let room = most.min(MAX_FILL_OCTETS as u64) as usize;
    if !unread.fill_from_client(front, room)? {
        return Ok(0);
    }
    Ok((unread.as_slice().len() - before) as u64)
}

/// Answers a client's commands as they come, until what it gives is no command, its input ends, or it gave `OCTET_LIMIT` octets.
fn converse<S: CommandStore, F: Front>(
    alloc: Global,
    store: &mut S,
    front: &mut F,
) -> Result<(), SessionError>
    requires mail { IsTellableMail (S.session store.old).mail }
    ensures tape { Adds (F.tape front.old) (F.tape front.new) (λ es. Session (S.session store.old) es (S.session store.new) result) }
    ensures mail { IsTellableMail (S.session store.new).mail }
    ensures alone { FrontAlone (F.faults front.old) (F.faults front.new) }
    ensures cause { IsErrOf result SessionError.Failed → Rose (F.faults front.old).front (F.faults front.new).front }
    ensures hidden { F.hidden front.new ≡ F.hidden front.old }
{
    let mut unread = Unread::new(alloc);
    let mut left = OCTET_LIMIT;
    loop {
        match step(alloc, store, front, &mut unread)? {
            Next::Read => (),
            Next::End => return Ok(()),
            Next::Wait => {
                if left == 0 {
                    return Ok(());
                }
                let came = receive(front, &mut unread, left)?;
                if came == 0 {
                    return Ok(());
                }
                left -= came;
            }
        }
    }
}

/// Greets a client, and answers its commands in a session of its own.
fn greet_and_converse<S: CommandStore, F: Front>(
    alloc: Global,
    store: &mut S,
    front: &mut F,
) -> Result<(), SessionError>
    requires mail { IsTellableMail (S.session store.old).mail }
    ensures tape { Adds (F.tape front.old) (F.tape front.new) (λ es. GreetsClient (S.session store.old) es (S.session store.new) result) }
    ensures mail { IsTellableMail (S.session store.new).mail }
    ensures alone { FrontAlone (F.faults front.old) (F.faults front.new) }
    ensures cause { IsErrOf result SessionError.Failed → Rose (F.faults front.old).front (F.faults front.new).front }
    ensures hidden { F.hidden front.new ≡ F.hidden front.old }
{
    store.begin_session();
    send_all(front, GREETING)?;
    converse(alloc, store, front)
}

/// Serves a client that was accepted: greets it, answers its commands, and is done with it. It asks for the octets of a literal, once,
/// where all that the client gave so far ends with the literal's head; a client that doesn't wait there may not be asked. The session ends where what the client gives is no command, its input ends, or it gave 2^40 octets;
/// it breaks off where the front fails or memory is wanting.
pub fn serve_client<S: CommandStore, F: Front>(
    alloc: Global,
    store: &mut S,
    front: &mut F,
) -> Result<(), SessionError>
    requires mail { IsTellableMail (S.session store.old).mail }
    ensures tape { Adds (F.tape front.old) (F.tape front.new) (λ es. ServesClient (S.session store.old) es (S.session store.new) result) }
    ensures mail { IsTellableMail (S.session store.new).mail }
    ensures alone { FrontAlone (F.faults front.old) (F.faults front.new) }
    ensures cause { IsErrOf result SessionError.Failed → Rose (F.faults front.old).front (F.faults front.new).front }
    ensures hidden { F.hidden front.new ≡ F.hidden front.old }
{
    let served = greet_and_converse(alloc, store, front);
    front.finish();
    served
}
