// One message: read, and its Email object sent.
ghost use Rattle.std.specs.Prelude.{◌≡◌, IfOk, IsErrOf};
ghost use Rattle.gate_world.specs.Causes.{Rose, FrontAlone};
ghost use Rattle.gate_world.specs.Tape.{Adds};
ghost use Rattle.gateway.specs.Show.{ShowsObject, ReadsInput, AnswersShow, ShowsClient, Shows};

use email_objects::email_object;
use gate_serving::{FrontError, receive, with_line_end};
use gate_world::{Front, send_all};
use octets::Bytes;
use std::alloc::{AllocError, Global};

/// The most octets of a message that are read.
const MAX_MESSAGE_OCTETS: usize = 50_000_000;

// The line that shows the Email object of a message.
fn object_line(alloc: Global, octets: &[u8]) -> Result<Bytes, AllocError>
    ensures { IfOk result (λ line. ShowsObject octets.now line) }
{
    let object = email_object(alloc, octets)?;
    let text = object.to_string(alloc)?;
    with_line_end(Bytes::from_vec(text.into_bytes())?)
}

// Reads a message, and makes the line that shows it.
fn read_message<F: Front>(alloc: Global, front: &mut F) -> Result<Bytes, FrontError>
    ensures tape { Adds (F.tape front.old) (F.tape front.new) (ReadsInput result) }
    ensures alone { FrontAlone (F.faults front.old) (F.faults front.new) }
    ensures cause { IsErrOf result FrontError.Failed → Rose (F.faults front.old).front (F.faults front.new).front }
    ensures hidden { F.hidden front.new ≡ F.hidden front.old }
{
    let input = receive(alloc, front, MAX_MESSAGE_OCTETS)?;
    Ok(object_line(alloc, input.octets())?)
}

// Reads a message, and sends the line that shows it.
fn answer<F: Front>(alloc: Global, front: &mut F) -> Result<(), FrontError>
    ensures tape { Adds (F.tape front.old) (F.tape front.new) (AnswersShow result) }
    ensures alone { FrontAlone (F.faults front.old) (F.faults front.new) }
    ensures cause { IsErrOf result FrontError.Failed → Rose (F.faults front.old).front (F.faults front.new).front }
    ensures hidden { F.hidden front.new ≡ F.hidden front.old }
{
    let line = read_message(alloc, front)?;
    Ok(send_all(front, line.as_slice())?)
}

// A client that came.
fn show_client<F: Front>(alloc: Global, front: &mut F) -> Result<(), FrontError>
    ensures tape { Adds (F.tape front.old) (F.tape front.new) (ShowsClient result) }
    ensures alone { FrontAlone (F.faults front.old) (F.faults front.new) }
    ensures cause { IsErrOf result FrontError.Failed → Rose (F.faults front.old).front (F.faults front.new).front }
    ensures hidden { F.hidden front.new ≡ F.hidden front.old }
{
    let answered = answer(alloc, front);
    front.finish();
    answered
}

/// Shows one client its message as an Email object, where one comes. Out of memory, or a front that fails before the
/// message's end, sends nothing.
pub fn show_one<F: Front>(alloc: Global, front: &mut F) -> Result<(), FrontError>
    ensures tape { Adds (F.tape front.old) (F.tape front.new) (Shows result) }
    ensures alone { FrontAlone (F.faults front.old) (F.faults front.new) }
    ensures cause { IsErrOf result FrontError.Failed → Rose (F.faults front.old).front (F.faults front.new).front }
    ensures hidden { F.hidden front.new ≡ F.hidden front.old }
{
    match front.accept() {
        Err(_) => Err(FrontError::Failed),
        Ok(false) => Ok(()),
        Ok(true) => show_client(alloc, front),
    }
}
