// Reading lines from the client: a head, a chunk's line, a trailer section.
ghost use Rattle.std.specs.Prelude.{◌≡◌, ◌≤◌, IfOk, IsErrOf};
ghost use Rattle.gate_world.specs.Causes.{Rose, FrontAlone};
ghost use Rattle.gate_world.specs.Tape.{Adds};
ghost use Rattle.http_service.specs.Taking.{window};
ghost use Rattle.http_service.specs.ReadHead.{ReadsHead};
ghost use Rattle.http_service.specs.reading.Steps.{IsStopped, ReadsLines, ReadsLine, ReadsTrailer};

use crate::chunk_lines::{parse_line, parse_trailer};
use crate::error::HttpError;
use crate::filling::fill;
use crate::head::{Head, parse_head};
use crate::lines::{Lines, MAX_HEAD_OCTETS};
use gate_world::{Front, Unread};
use std::alloc::Global;

/// Where reading lines stopped.
#[derive(Clone, Copy, Debug, PartialEq, Eq)]
pub(crate) enum Stop {
    /// At the line end that ends the lines.
    Ended,
    /// At the most octets that they may have.
    Full,
    /// At the end of the client's input.
    Closed,
}

// The octets that lines may stand in.
fn window(octets: &[u8]) -> &[u8]
    ensures { result.now ≡ window octets.now }
{
    if octets.len() < MAX_HEAD_OCTETS {
        return octets;
    }
    let (window, _) = octets.split_at(MAX_HEAD_OCTETS);
    window
}

// Asks for octets until the lines have ended, and no longer.
fn read_lines<F: Front>(front: &mut F, spare: &mut Unread, lines: Lines) -> Result<Stop, HttpError>
    ensures tape { Adds (F.tape front.old) (F.tape front.new) (ReadsLines lines spare.old spare.new result) }
    ensures stop { IfOk result (λ stop. IsStopped lines stop spare.new) }
    ensures alone { FrontAlone (F.faults front.old) (F.faults front.new) }
    ensures cause { IsErrOf result HttpError.FrontFault → Rose (F.faults front.old).front (F.faults front.new).front }
    ensures hidden { F.hidden front.new ≡ F.hidden front.old }
{
    let mut place = lines.start();
    let mut seen = 0;
    'reading: loop {
        place = lines.place_after(place, window(spare.as_slice()), seen);
        if place.is_ended() {
            return Ok(Stop::Ended);
        }
        seen = window(spare.as_slice()).len();
        if seen >= MAX_HEAD_OCTETS {
            return Ok(Stop::Full);
        }
        if !fill(front, spare, MAX_HEAD_OCTETS - seen)? {
            return Ok(Stop::Closed);
        }
    }
}

/// Reads a request's head, of at most `MAX_HEAD_OCTETS` with its empty line (RFC 9112 section 2.1). The octets that came
/// after it stay in `spare`.
pub fn read_head<F: Front>(
    alloc: Global,
    front: &mut F,
    spare: &mut Unread,
) -> Result<Head, HttpError>
    ensures tape { Adds (F.tape front.old) (F.tape front.new) (ReadsHead spare.old spare.new result) }
    ensures alone { FrontAlone (F.faults front.old) (F.faults front.new) }
    ensures cause { IsErrOf result HttpError.FrontFault → Rose (F.faults front.old).front (F.faults front.new).front }
    ensures hidden { F.hidden front.new ≡ F.hidden front.old }
{
    let stop = read_lines(front, spare, Lines::Head)?;
    match parse_head(alloc, window(spare.as_slice()))? {
        Some((head, size)) => {
            spare.skip(size);
            Ok(head)
        }
        None => match stop {
            Stop::Ended => unreachable!(),
            Stop::Full => Err(HttpError::HeadTooLarge),
            Stop::Closed => Err(HttpError::Short),
        },
    }
}

/// Reads a chunk's line of at most `MAX_HEAD_OCTETS` (RFC 9112 section 7.1), and gives its length and the size that it says.
pub(crate) fn read_line<F: Front>(
    front: &mut F,
    spare: &mut Unread,
) -> Result<(usize, u64), HttpError>
    ensures tape { Adds (F.tape front.old) (F.tape front.new) (ReadsLine spare.old spare.new result) }
    ensures short { IfOk result (λ line. line.0 ≤ MAX_HEAD_OCTETS) }
    ensures alone { FrontAlone (F.faults front.old) (F.faults front.new) }
    ensures cause { IsErrOf result HttpError.FrontFault → Rose (F.faults front.old).front (F.faults front.new).front }
    ensures hidden { F.hidden front.new ≡ F.hidden front.old }
{
    let stop = read_lines(front, spare, Lines::ChunkLine)?;
    match parse_line(window(spare.as_slice()))? {
        Some((length, size)) => {
            spare.skip(length);
            Ok((length, size))
        }
        None => match stop {
            Stop::Ended => unreachable!(),
            Stop::Full => Err(HttpError::BadHead),
            Stop::Closed => Err(HttpError::Short),
        },
    }
}

/// Reads a trailer section of at most `MAX_HEAD_OCTETS` with its empty line (RFC 9112 section 7.1.2).
pub(crate) fn read_trailer<F: Front>(
    alloc: Global,
    front: &mut F,
    spare: &mut Unread,
) -> Result<(), HttpError>
    ensures tape { Adds (F.tape front.old) (F.tape front.new) (ReadsTrailer spare.old spare.new result) }
    ensures alone { FrontAlone (F.faults front.old) (F.faults front.new) }
    ensures cause { IsErrOf result HttpError.FrontFault → Rose (F.faults front.old).front (F.faults front.new).front }
    ensures hidden { F.hidden front.new ≡ F.hidden front.old }
{
    let stop = read_lines(front, spare, Lines::Trailer)?;
    match parse_trailer(alloc, window(spare.as_slice()))? {
        Some(length) => {
            spare.skip(length);
            Ok(())
        }
        None => match stop {
            Stop::Ended => unreachable!(),
            Stop::Full => Err(HttpError::BadHead),
            Stop::Closed => Err(HttpError::Short),
        },
    }
}
