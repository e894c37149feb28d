// What the store answers to a command.
ghost use Rattle.std.specs.Prelude.{◌≡◌, []};
ghost use Rattle.imap_types.specs.declared.code.Code.TheVariants as codes;
ghost use Rattle.imap_types.specs.declared.response.Status.TheVariants as status;

use imap_types::{Code, Response, Status};
use std::alloc::Global;
use std::marker::Model;

/// What a command is answered: untagged responses in order, and what the tagged one says.
#[derive(Debug, Drop)]
pub struct Answer {
    pub responses: Vec<Response>,
    pub status: Status,
    pub code: Code,
}

impl Model for Answer {
    ghost use Rattle.honest_store.specs.Sessions.{StoreAnswer};

    ghost Value = { StoreAnswer };

    ghost view = { λ a. record { responses = a.responses.items; status = a.status; code = a.code } };
}

impl Answer {
    /// OK, and nothing told.
    pub(crate) fn done(alloc: Global) -> Answer
        ensures { result ≡ record { responses = []; status = status.Ok; code = codes.Absent } }
    {
        Answer::told(Vec::new(alloc))
    }

    /// OK, and this is told.
    pub(crate) fn told(responses: Vec<Response>) -> Answer
        ensures { result ≡ record { responses = responses.items; status = status.Ok; code = codes.Absent } }
    {
        Answer::coded(responses, Code::Absent)
    }

    /// OK with a code, and this is told.
    pub(crate) fn coded(responses: Vec<Response>, code: Code) -> Answer
        ensures { result ≡ record { responses = responses.items; status = status.Ok; code = code } }
    {
        Answer {
            responses,
            status: Status::Ok,
            code,
        }
    }

    /// NO, and this is told.
    pub(crate) fn refused(responses: Vec<Response>) -> Answer
        ensures { result ≡ record { responses = responses.items; status = status.No; code = codes.Absent } }
    {
        Answer {
            responses,
            status: Status::No,
            code: Code::Absent,
        }
    }
}
