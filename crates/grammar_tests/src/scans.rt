// Where responses end.
use imap_grammar::{Scan, Scanner, scan};
use std::alloc::{AllocError, Global};
use test_rows::{first_number, octets_of};

/// The answer to the octets, fed one at a time.
pub(crate) fn fed(bytes: &[u8]) -> Scan {
    let mut scanner = Scanner::new();
    for octet in bytes {
        let answer = scanner.feed(&[*octet]);
        match answer {
            Scan::NeedMore => {}
            _ => return answer,
        }
    }
    Scan::NeedMore
}

/// Adds the answer to the octets, whole and one at a time.
pub(crate) fn put_scan(alloc: Global, text: &str, out: &mut String) -> Result<(), AllocError> {
    let octets = octets_of(alloc, text)?;
    let (whole, fed) = (scan(&octets), fed(&octets));
    if fed == whole {
        writeln!(out, "{whole:?}")
    } else {
        writeln!(out, "{whole:?}, and one at a time {fed:?}")
    }
}

/// The answer to the front, to this piece so many times, and to what follows.
fn after(front: &[u8], times: u64, piece: &[u8], last: &[u8]) -> Scan {
    let mut scanner = Scanner::new();
    let answer = scanner.feed(front);
    match answer {
        Scan::NeedMore => {}
        _ => return answer,
    }
    for _ in 0..times {
        let answer = scanner.feed(piece);
        match answer {
            Scan::NeedMore => {}
            _ => return answer,
        }
    }
    scanner.feed(last)
}

/// Adds the answer to octets with so many pieces of this length between them.
pub(crate) fn put_limit(alloc: Global, text: &str, out: &mut String) -> Result<(), AllocError> {
    let (times, text) = first_number(text);
    let (length, text) = first_number(text);
    let (front, last) = text.split_once('|').unwrap_or((text, ""));
    let piece = vec![in alloc; b'a'; usize::try_from(length).unwrap_or(0)]?;
    let front = octets_of(alloc, front)?;
    let last = octets_of(alloc, last)?;
    writeln!(out, "{:?}", after(&front, times, &piece, &last))
}
