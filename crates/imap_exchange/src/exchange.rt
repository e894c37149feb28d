// One command and what the store answers to it (RFC 9051 section 2.2).
ghost use Rattle.std.specs.Prelude.{◌≡◌, ◌≢◌, ◌+◌, ◌++◌, ◌∷◌, ◌<◌, ◌≤◌, List, ℕ, [], length, min, true, false, IfOk, OnOk, OnErr, IsErrOf, Option, IsTrue, ◌↔◌, string_bytes};
ghost use Rattle.gate_world.specs.Causes.{Rose, LinkAlone};
ghost use Rattle.gate_world.specs.Tape.{Adds};
ghost use Rattle.imap_types.specs.Commands.{tag_of, command_pieces};
ghost use Rattle.imap_types.specs.declared.code.Code.{Code as code_type};
ghost use Rattle.imap_types.specs.declared.response.Status.{Status as status_type};
ghost use Rattle.imap_types.specs.declared.response.Status.TheVariants as statuses;
ghost use Rattle.imap_exchange.specs.Received.{room_left};
ghost use Rattle.imap_exchange.specs.Answering.{selected_by, Converses, answer_of, IsOf};
ghost use Rattle.imap_exchange.specs.reading.Turns.{is_settled_by};

use crate::link_end::LinkEnd;
use crate::received::Received;
use crate::response::next_response;
use crate::sending::send_piece;
use crate::turn::{Turn, next_place, turn_of};
use gate_world::Link;
use imap_commands::{Piece, write_command};
use imap_types::{Code, Command, Response, Status};
use octets::{Bytes, Listed};
use std::alloc::{AllocError, Global};
use told_folder::Exchange;

/// What the store answered.
#[derive(Debug, Drop)]
pub struct Answer {
    /// Those before the tagged line, in order, continuations too.
    pub responses: Listed<Response>,
    /// Of the tagged line: OK, NO or BAD.
    pub status: Status,
    /// Of the tagged line.
    pub code: Code,
}

fn tag(alloc: Global, number: u64) -> Result<String, AllocError>
    ensures { IfOk result (λ text. string_bytes text ≡ tag_of number) }
{
    format!(in alloc; "a{number}")
}

fn keep(responses: &mut Vec<Response>, response: Response) -> Result<(), AllocError>
    ensures { OnOk result (responses.new.items ≡ responses.old.items ++ response ∷ []) }
{
    responses.push(response)?;
    Ok(())
}

// Whether a tagged line of this status answers the command, which is sent whole where the link is up.
fn is_settled(up: bool, status: Status) -> bool
    ensures { result ≡ is_settled_by up status }
{
    match status {
        Status::Ok => up,
        _ => true,
    }
}

// Sends the pieces as they are due, and reads up to the tagged line. `taken` says whether the store took octets of them.
fn converse<L: Link>(
    alloc: Global,
    link: &mut L,
    received: &mut Received,
    up: &mut bool,
    taken: &mut bool,
    due: &[u8],
    pieces: &[Piece<'_>],
) -> Result<Answer, LinkEnd>
    requires some { 0 < length pieces.now }
    requires up { up.old ≡ true }
    requires none { taken.old ≡ false }
    ensures tape { Adds (L.tape link.old) (L.tape link.new) (Converses due.now pieces.now received.old received.new up.new taken.new result) }
    ensures alone { LinkAlone (L.faults link.old) (L.faults link.new) }
    ensures cause { up.new ≡ false → Rose (L.faults link.old).link (L.faults link.new).link }
    ensures lost { IsErrOf result LinkEnd.Lost → up.new ≡ false }
    ensures whole { IfOk result (λ a. a.status ≡ statuses.Ok → up.new ≡ true) }
    ensures progress { OnOk result (room_left received.new < room_left received.old) }
    ensures hidden { L.hidden link.new ≡ L.hidden link.old }
{
    let begun = received.offset();
    let mut responses = Vec::new(alloc);
    let mut at = 1;
    *up = send_piece(link, *up, taken, pieces, 0);
    'conversing: loop {
        let response = next_response(alloc, link, received, up, begun)?;
        match turn_of(response, due, at == pieces.len()) {
            Turn::Open(response) => keep(&mut responses, response)?,
            Turn::Continue => {
                keep(&mut responses, Response::Continue)?;
                *up = send_piece(link, *up, taken, pieces, at);
                at = next_place(at, pieces.len());
            }
            Turn::Done(status, code) => {
                if !is_settled(*up, status) {
                    return Err(LinkEnd::Lost);
                }
                return Ok(Answer {
                    responses: Listed::from_vec(responses),
                    status,
                    code,
                });
            }
            Turn::Ends(end) => return Err(end),
        }
    }
}

// Sends the command under this number, and reads what the store answers. `up` says whether the link is up, and `taken` whether
// the store took octets of the command.
fn send<L: Link>(
    alloc: Global,
    link: &mut L,
    received: &mut Received,
    up: &mut bool,
    taken: &mut bool,
    number: u64,
    command: &Command,
) -> Result<Answer, LinkEnd>
    requires up { up.old ≡ true }
    requires none { taken.old ≡ false }
    ensures tape { Adds (L.tape link.old) (L.tape link.new) (Converses (tag_of number) (command_pieces command.now number) received.old received.new up.new taken.new result) }
    ensures alone { LinkAlone (L.faults link.old) (L.faults link.new) }
    ensures cause { up.new ≡ false → Rose (L.faults link.old).link (L.faults link.new).link }
    ensures lost { IsErrOf result LinkEnd.Lost → up.new ≡ false }
    ensures whole { IfOk result (λ a. a.status ≡ statuses.Ok → up.new ≡ true) }
    ensures progress { OnOk result (room_left received.new < room_left received.old) }
    ensures hidden { L.hidden link.new ≡ L.hidden link.old }
{
    let pieces = write_command(alloc, command, number)?;
    let due = tag(alloc, number)?;
    converse(
        alloc,
        link,
        received,
        up,
        taken,
        due.as_bytes(),
        pieces.as_slice(),
    )
}

// The same name, whose octets are shared and not copied.
fn shared(name: &Option<Bytes>) -> Result<Option<Bytes>, AllocError>
    ensures { IfOk result (λ same. same ≡ name.now) }
{
    match name {
        None => Ok(None),
        Some(name) => Ok(Some(name.share()?)),
    }
}

// The folder that an OK to the command selects, where another was selected before. Its name is shared.
fn to_select(command: &Command, selected: &Option<Bytes>) -> Result<Option<Bytes>, AllocError>
    ensures { IfOk result (λ name. name ≡ selected_by command.now statuses.Ok selected.now) }
{
    match command {
        Command::Select { name, .. } => Ok(Some(name.share()?)),
        Command::Unselect => Ok(None),
        _ => shared(selected),
    }
}

// The folder that is selected once the command is answered so.
fn now_selected(command: &Command, status: Status, target: Option<Bytes>) -> Option<Bytes>
    ensures { (before : Option (List ℕ)) → target ≡ selected_by command.now statuses.Ok before → result ≡ selected_by command.now status before }
{
    match command {
        Command::Select { .. } => match status {
            Status::Ok => target,
            _ => None,
        },
        _ => target,
    }
}

/// Does the exchange of this number: it, and the folder that is selected after it. `up` says whether the link is up, and `taken`
/// whether the store took octets of the command.
pub fn complete<L: Link>(
    alloc: Global,
    link: &mut L,
    received: &mut Received,
    up: &mut bool,
    taken: &mut bool,
    number: u64,
    selected: &Option<Bytes>,
    command: Command,
) -> Result<(Exchange, Option<Bytes>), LinkEnd>
    requires { up.old ≡ true }
    ensures tape { Adds (L.tape link.old) (L.tape link.new) (Converses (tag_of number) (command_pieces command number) received.old received.new up.new taken.new (answer_of result)) }
    ensures is { IfOk result (λ p. IsOf command selected.now p.0 p.1) }
    ensures alone { LinkAlone (L.faults link.old) (L.faults link.new) }
    ensures cause { up.new ≡ false → Rose (L.faults link.old).link (L.faults link.new).link }
    ensures lost { IsErrOf result LinkEnd.Lost → up.new ≡ false }
    ensures whole { IfOk result (λ p. p.0.status ≡ statuses.Ok → up.new ≡ true) }
    ensures progress { OnOk result (room_left received.new < room_left received.old) }
    ensures hidden { L.hidden link.new ≡ L.hidden link.old }
{
    *taken = false;
    let before = shared(selected)?;
    let target = to_select(&command, selected)?;
    let answer = send(alloc, link, received, up, taken, number, &command)?;
    let now = now_selected(&command, answer.status, target);
    Ok((
        Exchange {
            command,
            selected: before,
            responses: answer.responses,
            status: answer.status,
            code: answer.code,
        },
        now,
    ))
}
