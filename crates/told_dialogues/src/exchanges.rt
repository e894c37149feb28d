// Exchanges made of octets.
use crate::commands::command_of;
use imap_commands::Command;
use imap_grammar::{Response, Scan, decode, scan};
use octets::{Bytes, Listed};
use std::alloc::{AllocError, Global};
use told_mail::Exchange;

/// How many octets the response at the front has, and the response; none where there is no whole one.
pub fn first_response(
    alloc: Global,
    octets: &[u8],
) -> Result<Option<(usize, Response)>, AllocError> {
    match scan(octets) {
        Scan::Whole(n) => {
            let (front, _) = octets.split_at(n);
            Ok(Some((n, decode(alloc, front)?)))
        }
        _ => Ok(None),
    }
}

/// The responses in these octets, up to the first that isn't whole.
fn responses(alloc: Global, octets: &[u8]) -> Result<Vec<Response>, AllocError> {
    let mut responses = Vec::new(alloc);
    let mut rest = octets;
    for _ in 0..octets.len() {
        let Some((len, response)) = first_response(alloc, rest)? else {
            return Ok(responses);
        };
        responses.push(response)?;
        rest = rest.get(len..).unwrap_or(&[]);
    }
    Ok(responses)
}

/// The exchange of this command and these responses; none where the last of them isn't tagged.
fn exchange(command: Command, selected: Bytes, mut responses: Vec<Response>) -> Option<Exchange> {
    match responses.pop() {
        Some(Response::Tagged { status, code, .. }) => Some(Exchange {
            command,
            selected: Some(selected),
            responses: Listed::from_vec(responses),
            status,
            code,
        }),
        _ => None,
    }
}

/// The exchange that these octets complete, of the command that the text asks, with the folder that was selected before it;
/// none where the text asks nothing, or the octets complete no exchange.
pub fn exchange_of(
    alloc: Global,
    asked: &str,
    selected: &[u8],
    octets: &[u8],
) -> Result<Option<Exchange>, AllocError> {
    let Some(command) = command_of(alloc, asked)? else {
        return Ok(None);
    };
    let selected = Bytes::copy_of(alloc, selected)?;
    let responses = responses(alloc, octets)?;
    Ok(exchange(command, selected, responses))
}
