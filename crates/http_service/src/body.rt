// A request's body.
ghost use Rattle.std.specs.Prelude.{◌≡◌, ◌≤◌, length, take, drop, IfOk, OnOk, OnErr, IsErrOf};
ghost use Rattle.gate_world.specs.Causes.{Rose, FrontAlone};
ghost use Rattle.gate_world.specs.Tape.{Adds};
ghost use Rattle.http_service.specs.ReadBody.{ReadsBody, ReadsLength};
ghost use Rattle.http_service.specs.reading.Steps.{AsksOn};

use crate::chunks::read_chunks;
use crate::error::HttpError;
use crate::filling::fill_to;
use crate::head::{BodyKind, Head};
use gate_world::{Front, Unread, send_all};
use octets::Bytes;
use std::alloc::{AllocError, Global};
use std::mem;

// Takes the first octets; where they are all that stand there, with no copy.
fn take_octets(alloc: Global, spare: &mut Unread, size: usize) -> Result<Vec<u8>, AllocError>
    requires { size ≤ length spare.old }
    ensures taken { IfOk result (λ taken. taken.items ≡ take size spare.old) }
    ensures rest { OnOk result (spare.new ≡ drop size spare.old) }
    ensures err { OnErr result (spare.new ≡ spare.old) }
{
    if spare.as_slice().len() == size {
        let all = mem::replace(spare, Unread::new(alloc));
        return Ok(all.into_vec());
    }
    spare.take_front(alloc, size)
}

// A body of `size` octets (RFC 9112 section 6.2).
fn read_length<F: Front>(
    alloc: Global,
    front: &mut F,
    spare: &mut Unread,
    size: usize,
) -> Result<Bytes, HttpError>
    ensures tape { Adds (F.tape front.old) (F.tape front.new) (ReadsLength size spare.old spare.new result) }
    ensures alone { FrontAlone (F.faults front.old) (F.faults front.new) }
    ensures cause { IsErrOf result HttpError.FrontFault → Rose (F.faults front.old).front (F.faults front.new).front }
    ensures hidden { F.hidden front.new ≡ F.hidden front.old }
{
    fill_to(front, spare, size)?;
    let body = take_octets(alloc, spare, size)?;
    Ok(Bytes::from_vec(body)?)
}

/// The interim response that asks for the body (RFC 9110 section 15.2.1).
const CONTINUE: &[u8] = b"HTTP/1.1 100 Continue\r\n\r\n";

// Tells the client to go on, where it waits for that.
fn ask_on<F: Front>(front: &mut F, expects: bool) -> Result<(), HttpError>
    ensures tape { Adds (F.tape front.old) (F.tape front.new) (AsksOn expects result) }
    ensures alone { FrontAlone (F.faults front.old) (F.faults front.new) }
    ensures cause { IsErrOf result HttpError.FrontFault → Rose (F.faults front.old).front (F.faults front.new).front }
    ensures hidden { F.hidden front.new ≡ F.hidden front.old }
{
    if expects {
        match send_all(front, CONTINUE) {
            Ok(()) => Ok(()),
            Err(_) => Err(HttpError::FrontFault),
        }
    } else {
        Ok(())
    }
}

/// Reads the body that the head says, of at most `limit` octets. A client that waits for it is sent `100 Continue` first.
/// The octets that came after the body are kept in `spare`.
pub fn read_body<F: Front>(
    alloc: Global,
    front: &mut F,
    spare: &mut Unread,
    head: &Head,
    limit: u64,
) -> Result<Bytes, HttpError>
    ensures tape { Adds (F.tape front.old) (F.tape front.new) (ReadsBody head.now.body head.now.expects limit spare.old spare.new result) }
    ensures alone { FrontAlone (F.faults front.old) (F.faults front.new) }
    ensures cause { IsErrOf result HttpError.FrontFault → Rose (F.faults front.old).front (F.faults front.new).front }
    ensures hidden { F.hidden front.new ≡ F.hidden front.old }
{
    match head.body {
        BodyKind::Length(size) => {
            if limit < size {
                return Err(HttpError::TooLarge { limit });
            }
            match ask_on(front, head.expects) {
                Ok(()) => read_length(alloc, front, spare, size as usize),
                Err(error) => Err(error),
            }
        }
        BodyKind::Chunked => match ask_on(front, head.expects) {
            Ok(()) => read_chunks(alloc, front, spare, limit),
            Err(error) => Err(error),
        },
    }
}
