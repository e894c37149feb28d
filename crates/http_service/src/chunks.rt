// A chunked body (RFC 9112 section 7.1).
ghost use Rattle.std.specs.Prelude.{◌≡◌, ◌+◌, ◌-◌, length, vec_len, OnOk, IsErrOf};
ghost use Rattle.gate_world.specs.Causes.{Rose, FrontAlone};
ghost use Rattle.gate_world.specs.Tape.{Adds};
ghost use Rattle.http_service.specs.ReadChunked.{ReadsChunks};
ghost use Rattle.http_service.specs.reading.Steps.{ReadsOctet, ReadsData, ReadsChunk};

use crate::error::HttpError;
use crate::filling::fill_to;
use crate::line_reading::{read_line, read_trailer};
use gate_world::{Front, Unread};
use octets::Bytes;
use std::alloc::Global;

/// What a chunk's line may have without counting: its size and CR LF.
pub const FREE_LINE_OCTETS: usize = 16;

/// The most octets that the lines of a body's chunks may have beyond `FREE_LINE_OCTETS` each, taken together: so that what
/// stands outside the data has a bound.
pub const MAX_EXCESS_OCTETS: usize = 16_384;

// Reads this octet.
fn read_octet<F: Front>(front: &mut F, spare: &mut Unread, octet: u8) -> Result<(), HttpError>
    ensures tape { Adds (F.tape front.old) (F.tape front.new) (ReadsOctet octet spare.old spare.new result) }
    ensures alone { FrontAlone (F.faults front.old) (F.faults front.new) }
    ensures cause { IsErrOf result HttpError.FrontFault → Rose (F.faults front.old).front (F.faults front.new).front }
    ensures hidden { F.hidden front.new ≡ F.hidden front.old }
{
    fill_to(front, spare, 1)?;
    if spare.as_slice()[0] != octet {
        return Err(HttpError::BadHead);
    }
    spare.skip(1);
    Ok(())
}

// Reads n octets of data, and adds them to the body.
fn read_data<F: Front>(
    front: &mut F,
    spare: &mut Unread,
    size: usize,
    body: &mut Vec<u8>,
) -> Result<(), HttpError>
    ensures tape { Adds (F.tape front.old) (F.tape front.new) (ReadsData size body.old.items body.new.items spare.old spare.new result) }
    ensures grows { OnOk result (vec_len body.new ≡ vec_len body.old + size) }
    ensures alone { FrontAlone (F.faults front.old) (F.faults front.new) }
    ensures cause { IsErrOf result HttpError.FrontFault → Rose (F.faults front.old).front (F.faults front.new).front }
    ensures hidden { F.hidden front.new ≡ F.hidden front.old }
{
    fill_to(front, spare, size)?;
    let (octets, _) = spare.as_slice().split_at(size);
    body.extend_from_slice(octets)?;
    spare.skip(size);
    Ok(())
}

// Reads a chunk's data and the line end after it.
fn read_chunk<F: Front>(
    front: &mut F,
    spare: &mut Unread,
    size: usize,
    body: &mut Vec<u8>,
) -> Result<(), HttpError>
    ensures tape { Adds (F.tape front.old) (F.tape front.new) (ReadsChunk size body.old.items body.new.items spare.old spare.new result) }
    ensures grows { OnOk result (vec_len body.new ≡ vec_len body.old + size) }
    ensures alone { FrontAlone (F.faults front.old) (F.faults front.new) }
    ensures cause { IsErrOf result HttpError.FrontFault → Rose (F.faults front.old).front (F.faults front.new).front }
    ensures hidden { F.hidden front.new ≡ F.hidden front.old }
{
    read_data(front, spare, size, body)?;
    read_octet(front, spare, b'\r')?;
    read_octet(front, spare, b'\n')
}

/// Reads a chunked body of at most n octets.
pub(crate) fn read_chunks<F: Front>(
    alloc: Global,
    front: &mut F,
    spare: &mut Unread,
    limit: u64,
) -> Result<Bytes, HttpError>
    ensures tape { Adds (F.tape front.old) (F.tape front.new) (ReadsChunks limit spare.old spare.new result) }
    ensures alone { FrontAlone (F.faults front.old) (F.faults front.new) }
    ensures cause { IsErrOf result HttpError.FrontFault → Rose (F.faults front.old).front (F.faults front.new).front }
    ensures hidden { F.hidden front.new ≡ F.hidden front.old }
{
    let mut body = Vec::new(alloc);
    let mut excess: usize = 0;
    'chunks: loop {
        let (line, size) = read_line(front, spare)?;
        if size == 0 {
            read_trailer(alloc, front, spare)?;
            return Ok(Bytes::from_vec(body)?);
        }
        excess += line.saturating_sub(FREE_LINE_OCTETS);
        if excess > MAX_EXCESS_OCTETS {
            return Err(HttpError::BadHead);
        }
        if limit - (body.len() as u64) < size {
            return Err(HttpError::TooLarge { limit });
        }
        read_chunk(front, spare, size as usize, &mut body)?;
    }
}
