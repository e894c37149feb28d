// The lines of a chunked body: those before chunks, and its trailer section (RFC 9112 section 7.1).
ghost use Rattle.std.specs.Prelude.{length};
ghost use Rattle.httparse.specs.Spans.{SectionExceeds};
ghost use Rattle.http_service.specs.reading.Parses.{ParsesLine, ParsesTrailer};

use crate::error::HttpError;
use crate::head::room;
use crate::lines::Lines;
use httparse::spans::{HeaderSpan, parse_headers};
use httparse::{Status, parse_chunk_size};
use std::alloc::Global;

/// The chunk's line at the front of the octets: its length, and the size that it says.
pub(crate) fn parse_line(octets: &[u8]) -> Result<Option<(usize, u64)>, HttpError>
    ensures { ParsesLine octets.now result }
{
    match parse_chunk_size(octets) {
        Ok(Status::Complete((length, size))) => Ok(Some((length, size))),
        Ok(Status::Partial) => Ok(None),
        Err(_) => Err(HttpError::BadHead),
    }
}

// The same as `parse_trailer`, where there is room for its fields.
fn parse_fields(octets: &[u8], fields: &mut [HeaderSpan]) -> Result<Option<usize>, HttpError>
    requires { SectionExceeds (length fields.old) octets.now → ⊥ }
    ensures { ParsesTrailer octets.now result }
{
    match parse_headers(octets, fields) {
        Ok(Status::Complete((length, _))) => Ok(Some(length)),
        Ok(Status::Partial) => Ok(None),
        Err(_) => Err(HttpError::BadHead),
    }
}

/// The length of the trailer section at the front of the octets.
pub(crate) fn parse_trailer(alloc: Global, octets: &[u8]) -> Result<Option<usize>, HttpError>
    ensures { ParsesTrailer octets.now result }
{
    let mut fields = room(alloc, Lines::Trailer.end_in(octets))?;
    parse_fields(octets, &mut fields)
}
