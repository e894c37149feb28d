// The next response of a link life.
ghost use Rattle.std.specs.Prelude.{◌≡◌, ◌<◌, ◌≤◌, length, take, drop, true, false, IfOk, OnOk, OnErr, IsErrOf};
ghost use Rattle.imap_exchange.specs.Received.{room_left};
ghost use Rattle.gate_world.specs.Causes.{Rose, LinkAlone};
ghost use Rattle.gate_world.specs.Tape.{Adds};
ghost use Rattle.imap_exchange.specs.Responses.{ReadsResponse, ReadsOf};
ghost use Rattle.imap_exchange.specs.reading.Filling.{is_up_after, is_up_at};
ghost use Rattle.imap_grammar.specs.Scan.{ScanOf};
ghost use Rattle.imap_grammar.specs.Fed.{IsScannerFed};
ghost use Rattle.imap_grammar.specs.declared.answer.Scan.TheVariants.{Whole, NeedMore};
ghost use Rattle.imap_types.specs.Spells.{IsSpelling};
ghost use Rattle.std.specs.Prelude.{[]};

use crate::link_end::LinkEnd;
use crate::received::Received;
use gate_world::Link;
use imap_grammar::{Scan, Scanner, decode, scan};
use imap_types::Response;
use std::alloc::{AllocError, Global};

// Takes the response off the front.
fn take_response(
    alloc: Global,
    received: &mut Received,
    length: usize,
) -> Result<Response, AllocError>
    requires { ScanOf received.old.octets (Whole length) }
    ensures response { IfOk result (λ v. IsSpelling v (take length received.old.octets)) }
    ensures rest { IfOk result (λ _. received.new.octets ≡ drop length received.old.octets) }
    ensures given { received.new.given ≡ received.old.given }
    ensures progress { OnOk result (room_left received.new < room_left received.old) }
{
    let response = decode(alloc, &received.as_slice()[..length])?;
    received.skip(length);
    Ok(response)
}

// Scans on from the place up to which the scanner was fed.
fn scan_on(scanner: &mut Scanner, octets: &[u8], fed: usize) -> Scan
    requires fed { IsScannerFed scanner.old (take fed octets.now) }
    requires within { fed ≤ length octets.now }
    ensures scan { ScanOf octets.now result }
    ensures more { result ≡ NeedMore → IsScannerFed scanner.new octets.now }
{
    let (_, rest) = octets.split_at(fed);
    scanner.feed(rest)
}

// Reads up to the end of the next response. Each octet is scanned once.
fn read_response<L: Link>(
    alloc: Global,
    link: &mut L,
    received: &mut Received,
    begun: u64,
) -> Result<Response, LinkEnd>
    requires { begun ≤ received.old.given }
    ensures tape { Adds (L.tape link.old) (L.tape link.new) (ReadsResponse begun true (is_up_after result) received.old received.new result) }
    ensures alone { LinkAlone (L.faults link.old) (L.faults link.new) }
    ensures cause { IsErrOf result LinkEnd.Lost → Rose (L.faults link.old).link (L.faults link.new).link }
    ensures given { OnOk result (received.old.given ≤ received.new.given) }
    ensures progress { OnOk result (room_left received.new < room_left received.old) }
    ensures hidden { L.hidden link.new ≡ L.hidden link.old }
{
    let mut scanner = Scanner::new();
    let mut fed = 0;
    'reading: loop {
        match scan_on(&mut scanner, received.as_slice(), fed) {
            Scan::Whole(length) => return Ok(take_response(alloc, received, length)?),
            Scan::Bad(_) => return Err(LinkEnd::Bad {
                at: received.offset(),
            }),
            Scan::NeedMore => {}
        }
        fed = received.as_slice().len();
        received.fill(link, begun)?;
    }
}

// The next response of what is held, where no more can come.
fn held_response(alloc: Global, received: &mut Received, begun: u64) -> Result<Response, LinkEnd>
    ensures reads { ReadsOf begun false received.old [] received.new result }
    ensures given { OnOk result (received.old.given ≤ received.new.given) }
    ensures progress { OnOk result (room_left received.new < room_left received.old) }
{
    match scan(received.as_slice()) {
        Scan::Whole(length) => Ok(take_response(alloc, received, length)?),
        Scan::Bad(_) => Err(LinkEnd::Bad {
            at: received.offset(),
        }),
        Scan::NeedMore => Err(LinkEnd::Lost),
    }
}

// Whether the link is up after this end.
fn is_up(end: LinkEnd) -> bool
    ensures { result ≡ is_up_at end }
{
    match end {
        LinkEnd::Lost => false,
        _ => true,
    }
}

/// The next response: read from the link where it is up, else of what is held alone. `up` says whether the link is up,
/// and `begun` how many octets the life had given before the exchange.
pub fn next_response<L: Link>(
    alloc: Global,
    link: &mut L,
    received: &mut Received,
    up: &mut bool,
    begun: u64,
) -> Result<Response, LinkEnd>
    requires { begun ≤ received.old.given }
    ensures tape { Adds (L.tape link.old) (L.tape link.new) (ReadsResponse begun up.old up.new received.old received.new result) }
    ensures alone { LinkAlone (L.faults link.old) (L.faults link.new) }
    ensures stays { OnOk result (up.new ≡ up.old) }
    ensures down { up.old ≡ false → up.new ≡ false }
    ensures cause { up.old ≡ true → up.new ≡ false → Rose (L.faults link.old).link (L.faults link.new).link }
    ensures lost { IsErrOf result LinkEnd.Lost → up.new ≡ false }
    ensures given { OnOk result (received.old.given ≤ received.new.given) }
    ensures progress { OnOk result (room_left received.new < room_left received.old) }
    ensures hidden { L.hidden link.new ≡ L.hidden link.old }
{
    if !*up {
        return held_response(alloc, received, begun);
    }
    match read_response(alloc, link, received, begun) {
        Ok(response) => Ok(response),
        Err(end) => {
            *up = is_up(end);
            Err(end)
        }
    }
}
