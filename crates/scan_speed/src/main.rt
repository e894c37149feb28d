//! How fast a store's responses are read. `scan_speed PIECE` makes 10,000 responses with a literal of 10,000 octets, and then
//! 100,000 lines of flags, and says of each how long `memchr` takes to go over them, and how long they take to be scanned,
//! in pieces of PIECE octets, and decoded.
#![tactic(auto)]

ghost use Rattle.std.specs.Prelude.{◌≤◌, ◌<◌, length, take, IfSome};
ghost use Rattle.imap_types.specs.Spells.{IsSpelling};
ghost use Rattle.imap_types.specs.declared.response.Response.{Response};

use imap_grammar::{Scan, Scanner, decode};
use memchr::memchr;
use std::alloc::{AllocError, Global};
use std::env;
use std::time::Instant;

/// Responses with a literal.
const RESPONSES: usize = 10_000;

/// The octets of each response's literal.
const HEADER: usize = 10_000;

/// Lines of flags.
const LINES: usize = 100_000;

/// Responses that tell flags, as a store tells those that changed.
fn flag_lines(alloc: Global) -> Result<Vec<u8>, AllocError> {
    let mut out = Vec::new(alloc);
    for uid in 1..LINES + 1 {
        let line = format!(in alloc;
            "* {uid} FETCH (UID {uid} FLAGS (\\Seen) MODSEQ ({uid}))\r\n"
        )?;
        out.extend_from_slice(line.as_bytes())?;
    }
    Ok(out)
}

/// Responses that tell a message with its header.
fn header_responses(alloc: Global) -> Result<Vec<u8>, AllocError> {
    let header = vec![in alloc; b'a'; HEADER]?;
    let mut out = Vec::new(alloc);
    for uid in 1..RESPONSES + 1 {
        let front = format!(in alloc;
            "* {uid} FETCH (UID {uid} FLAGS (\\Seen) MODSEQ (14) INTERNALDATE \"02-Jan-2024 09:00:00 +0000\" RFC822.SIZE 20000 BODY[HEADER]<0> {{{HEADER}}}\r\n"
        )?;
        out.extend_from_slice(front.as_bytes())?;
        out.extend_from_slice(&header)?;
        out.extend_from_slice(b")\r\n")?;
    }
    Ok(out)
}

/// How many octets the response at the front has, where there is one. They are fed in pieces.
fn first(bytes: &[u8], piece: usize) -> Option<usize>
    requires { 0 < piece }
    ensures length { IfSome result (λ n. n ≤ length bytes.now) }
    ensures whole { IfSome result (λ n. (v : Response) × IsSpelling v (take n bytes.now)) }
{
    let mut scanner = Scanner::new();
    let mut rest = bytes;
    while !rest.is_empty() {
        let (front, after) = rest.split_at(rest.len().min(piece));
        match scanner.feed(front) {
            Scan::NeedMore => {}
            Scan::Whole(n) => return Some(n),
            Scan::Bad(_) => return None,
        }
        rest = after;
    }
    None
}

/// Scans and decodes responses up to the first octets that are none: how many there were.
fn read(alloc: Global, bytes: &[u8], piece: usize) -> Result<usize, AllocError>
    requires { 0 < piece }
{
    let mut rest = bytes;
    for count in 0..bytes.len() {
        let Some(n) = first(rest, piece) else {
            return Ok(count);
        };
        let (front, after) = rest.split_at(n);
        decode(alloc, front)?;
        rest = after;
    }
    Ok(bytes.len())
}

fn measure(rt: &HostRuntime, bytes: &[u8], piece: usize) -> Result<(), anyhow::Error>
    requires { 0 < piece }
{
    let length = bytes.len();
    let start = Instant::now(rt)?;
    let found = memchr(b'\0', bytes).is_some();
    let searched = start.elapsed(rt)?.as_micros();
    println!(rt; "{length} octets, of which one is 0: {found}; memchr: {searched} microseconds")?;
    let start = Instant::now(rt)?;
    let count = read(rt.alloc(), bytes, piece)?;
    let taken = start.elapsed(rt)?.as_micros();
    println!(rt; "{count} responses in pieces of {piece}: {taken} microseconds")?;
    Ok(())
}

fn main(rt: HostRuntime) -> Result<(), anyhow::Error> {
    let piece = match env::args(&rt)?.nth(1) {
        Some(word) => word.parse::<usize>().unwrap_or(0),
        None => 0,
    };
    if piece == 0 {
        println!(rt; "usage: scan_speed PIECE")?;
        return Ok(());
    }
    let headers = header_responses(rt.alloc())?;
    measure(&rt, &headers, piece)?;
    let flags = flag_lines(rt.alloc())?;
    measure(&rt, &flags, piece)
}
