// What codes say of one message (RFC 4315 section 3).
ghost use Rattle.std.specs.List.{filter_map, list_all};
ghost use Rattle.std.specs.Option.{option_and_then};
ghost use Rattle.std.specs.Prelude.{◌≡◌, find};
ghost use Rattle.told_changes.specs.Landings as landings;
ghost use Rattle.told_changes.specs.Landings.{codes_told, first_of_all, untagged_code};

use imap_types::{Code, Response, Status, UidRange};

/// Whether the range holds no UID but this one.
fn is_within(range: &UidRange, uid: u32) -> bool
    ensures { result ≡ landings.is_within uid range.now }
{
    range.last < range.first || range.first == uid && range.last == uid
}

/// Whether the ranges hold no UID but this one.
fn are_within(ranges: &[UidRange], uid: u32) -> bool
    ensures { result ≡ list_all (landings.is_within uid) ranges.now }
{
    ranges.iter().all(|range| is_within(range, uid))
}

fn holds_some(range: &UidRange) -> bool
    ensures { result ≡ landings.holds_some range.now }
{
    range.first <= range.last
}

/// The first of the ranges that holds some UID.
fn first_range(ranges: &[UidRange]) -> Option<UidRange>
    ensures { result ≡ find landings.holds_some ranges.now }
{
    for range in ranges {
        if holds_some(range) {
            return Some(*range);
        }
    }
    None
}

/// The one UID of a set of one.
fn only_uid(ranges: &[UidRange]) -> Option<u32>
    ensures { result ≡ landings.only_uid ranges.now }
{
    let Some(range) = first_range(ranges) else {
        return None;
    };
    if are_within(ranges, range.first) {
        Some(range.first)
    } else {
        None
    }
}

/// Whether it is this UID.
pub fn is_the(uid: u32, one: Option<u32>) -> bool
    ensures { result ≡ landings.is_the uid one }
{
    match one {
        Some(one) => one == uid,
        None => false,
    }
}

/// The UID that the message got, where the code says that it went to a folder of this validity, and no other with it.
fn copied_to(validity: u32, uid: u32, code: &Code) -> Option<u32>
    ensures { result ≡ landings.copied_to validity uid code.now }
{
    match code {
        Code::CopyUid {
            validity: told,
            from,
            to,
        } => {
            if *told == validity && is_the(uid, only_uid(from.ranges.as_slice())) {
                only_uid(to.ranges.as_slice())
            } else {
                None
            }
        }
        _ => None,
    }
}

/// The same of the code of an untagged OK.
fn copied_by(validity: u32, uid: u32, response: &Response) -> Option<u32>
    ensures { result ≡ option_and_then (landings.copied_to validity uid) (untagged_code response.now) }
{
    match response {
        Response::Untagged {
            status: Status::Ok,
            code,
        } => copied_to(validity, uid, code),
        _ => None,
    }
}

/// The UID that the first of the codes tells which says so.
pub fn moved_uid(validity: u32, uid: u32, responses: &[Response], code: &Code) -> Option<u32>
    ensures { result ≡ first_of_all (filter_map (landings.copied_to validity uid) (codes_told responses.now code.now)) }
{
    for response in responses {
        if let Some(to) = copied_by(validity, uid, response) {
            return Some(to);
        }
    }
    copied_to(validity, uid, code)
}

/// The UID that the code says a message got in a folder of this validity.
pub fn appended_uid(validity: u32, code: &Code) -> Option<u32>
    ensures { result ≡ landings.appended_at validity code.now }
{
    match code {
        Code::AppendUid {
            validity: told,
            uid,
        } => { if *told == validity { Some(*uid) } else { None } }
        _ => None,
    }
}
