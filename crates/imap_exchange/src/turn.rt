// What one response does to the exchange that is due.
ghost use Rattle.std.specs.Prelude.{◌≡◌, ◌+◌, ◌≤◌, min};
ghost use Rattle.imap_types.specs.declared.response.Response.TheVariants.{Tagged};
ghost use Rattle.imap_exchange.specs.reading.Turns.{Judges};

use crate::link_end::LinkEnd;
use imap_types::{Code, Response, Status};

/// What a response does to the exchange that waits for a tag.
#[derive(Debug, Drop)]
pub enum Turn {
    /// Another response, which is kept.
    Open(Response),
    /// A continuation, after which the next piece is sent.
    Continue,
    /// The tagged line that is due.
    Done(Status, Code),
    /// It ends the link life.
    Ends(LinkEnd),
}

// What a tagged line does.
fn tagged(tag: &[u8], status: Status, code: Code, due: &[u8], all_due: bool) -> Turn
    ensures { Judges (Tagged tag.now status code) due.now all_due result }
{
    if tag != due {
        return Turn::Ends(LinkEnd::Stray);
    }
    match status {
        Status::Ok => {
            if all_due {
                Turn::Done(Status::Ok, code)
            } else {
                Turn::Ends(LinkEnd::Stray)
            }
        }
        Status::No => Turn::Done(Status::No, code),
        Status::Bad => Turn::Done(Status::Bad, code),
        Status::Preauth => Turn::Done(Status::Preauth, code),
        Status::Bye => Turn::Done(Status::Bye, code),
    }
}

/// What the response does where this tag is due.
pub(crate) fn turn_of(response: Response, due: &[u8], all_due: bool) -> Turn
    ensures { Judges response due.now all_due result }
{
    match response {
        Response::Tagged { tag, status, code } => tagged(
            tag.as_slice(),
            status,
            code,
            due,
            all_due,
        ),
        Response::Untagged {
            status: Status::Bye,
            ..
        } => Turn::Ends(LinkEnd::Bye),
        Response::Continue => Turn::Continue,
        other => Turn::Open(other),
    }
}

/// The place after this one, but the end where that is reached.
pub(crate) fn next_place(at: usize, end: usize) -> usize
    requires { at ≤ end }
    ensures { result ≡ min (at + 1) end }
{
    if at < end { at + 1 } else { at }
}
