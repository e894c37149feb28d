// Responses as a store writes them.
use crate::responses::line_of;
use imap_grammar::Response;
use std::alloc::{AllocError, Global};
use store_responses::push_response;
use test_rows::put_octets;
use told_dialogues::first_response;

/// Whether the octets are one response, and say this.
fn say(alloc: Global, octets: &[u8], response: &Response) -> Result<bool, AllocError> {
    match first_response(alloc, octets)? {
        Some((len, said)) => Ok(len == octets.len() && said == *response),
        None => Ok(false),
    }
}

/// Adds the text in which a store writes the response, and whether that text isn't read back as it.
fn put_response(alloc: Global, response: &Response, out: &mut String) -> Result<(), AllocError> {
    let mut written = Vec::new(alloc);
    push_response(&mut written, response)?;
    put_octets(out, &written)?;
    if say(alloc, &written, response)? {
        Ok(())
    } else {
        out.push_str(", which isn't read back")
    }
}

/// Adds the text in which a store writes what a line's response says.
pub(crate) fn put_written(alloc: Global, text: &str, out: &mut String) -> Result<(), AllocError> {
    match first_response(alloc, &line_of(alloc, text)?)? {
        Some((_, response)) => put_response(alloc, &response, out)?,
        None => out.push_str("not whole")?,
    }
    out.push('\n')
}
