// What kind a real store's response is of.
use crate::scans::fed;
use imap_grammar::{FetchItems, Response, Scan, StatusItems, scan};

/// Whether the octets are one response, whole and one at a time.
pub(crate) fn is_whole(octets: &[u8]) -> bool {
    let whole = Scan::Whole(octets.len());
    scan(octets) == whole && fed(octets) == whole
}

/// Whether it is told of a message, by its UID.
fn kind_of_fetch(items: &FetchItems) -> &'static str {
    match items {
        FetchItems { uid: None, .. } => "a message without its UID",
        FetchItems {
            header: None,
            body: None,
            ..
        } => "flags of a message",
        _ => "octets of a message",
    }
}

/// Whether all three counts are told that were asked for.
fn kind_of_status(items: &StatusItems) -> &'static str {
    match items {
        StatusItems {
            messages: None,
            uid_next: Some(1),
            uid_validity: Some(_),
            modseq: Some(_),
        } => "counts of a folder",
        _ => "other counts",
    }
}

pub(crate) fn kind_of(response: &Response) -> &'static str {
    match response {
        Response::Tagged { .. } => "tagged",
        Response::Untagged { .. } => "untagged",
        Response::Continue => "continuation",
        Response::Capability(_) => "words",
        Response::Enabled(_) => "words",
        Response::List {
            delimiter: Some(b'/'),
            ..
        } => "folder",
        Response::StatusItems { items, .. } => kind_of_status(items),
        Response::Flags(_) => "flags",
        Response::Exists(12) => "count",
        Response::Fetch { items, .. } => kind_of_fetch(items),
        Response::Vanished { .. } => "vanished",
        Response::Other => "other",
        _ => "no such kind",
    }
}
