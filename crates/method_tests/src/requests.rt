// Requests, and what follows from the one that was read last.
use crate::methods::put_answer;
use crate::texts::put_text;
use jmap_core::{
    CreatedIds, Request, RequestError, problem_text, read_request, response_text, response_value,
    session_object,
};
use result_references::{Call, resolve};
use serde_json::Value;
use std::alloc::{AllocError, Global};
use test_rows::{first_word, octets_of, put_octets};

/// Adds the name and the id of each call.
fn put_calls(out: &mut String, calls: &[Call]) -> Result<(), AllocError> {
    for call in calls {
        write!(out, " {}#{}", call.name.as_str(), call.id.as_str())?;
    }
    Ok(())
}

/// Adds how many ids were created, and that of `k`.
fn put_created(out: &mut String, created: &CreatedIds) -> Result<(), AllocError> {
    let id = created.get("k").unwrap_or("-");
    write!(out, " {}:{id}", created.len())
}

/// Adds the capabilities, the calls and the created ids of a request.
fn put_request(out: &mut String, request: &Request) -> Result<(), AllocError> {
    write!(out, "{} {}", request.using.core, request.using.mail)?;
    put_calls(out, &request.calls)?;
    match &request.created {
        Some(created) => put_created(out, created),
        None => Ok(()),
    }
}

/// Adds why a body is no request, and the body of the answer.
fn put_error(out: &mut String, error: RequestError) -> Result<(), AllocError> {
    write!(out, "{error} ")?;
    put_octets(out, problem_text(error))
}

/// The request that was read last.
#[derive(Drop)]
pub(crate) struct Requests {
    calls: Vec<Call>,
    created: Option<CreatedIds>,
    alloc: Global,
}

impl Requests {
    pub(crate) fn new(alloc: Global) -> Requests {
        Requests {
            calls: Vec::new(alloc),
            created: None,
            alloc,
        }
    }

    /// Reads a body, and adds what it asks.
    fn read(&mut self, text: &str, out: &mut String) -> Result<(), AllocError> {
        let body = octets_of(self.alloc, text)?;
        match read_request(self.alloc, &body) {
            Ok(request) => {
                put_request(out, &request)?;
                self.calls = request.calls;
                self.created = request.created;
                Ok(())
            }
            Err(error) => put_error(out, error),
        }
    }

    /// The response with this session state that has the calls themselves as answers.
    fn response(&self, session: &str) -> Result<String, AllocError> {
        let created = self.created.as_ref();
        if self.calls.is_empty() {
            return response_text(self.alloc, &[], created, session);
        }
        let response = response_value(self.alloc, &self.calls, created, session)?;
        response.to_string(self.alloc)
    }

    /// Adds the arguments in which values stand in place of references to the calls.
    fn resolve(&self, text: &str, out: &mut String) -> Result<(), AllocError> {
        match Value::from_str(self.alloc, text) {
            Ok(arguments) => {
                let resolved = resolve(self.alloc, &arguments, &self.calls);
                put_answer(self.alloc, out, resolved)
            }
            Err(_) => out.push_str("no JSON"),
        }
    }

    /// The Session of a user under a base URL.
    fn session(&self, text: &str) -> Result<String, AllocError> {
        let (user, base) = first_word(text);
        let session = session_object(self.alloc, user, base)?;
        session.to_string(self.alloc)
    }

    /// Adds what comes of a line.
    pub(crate) fn take(
        &mut self,
        word: &str,
        text: &str,
        out: &mut String,
    ) -> Result<(), AllocError> {
        match word {
            "request" => self.read(text, out),
            "resolve" => self.resolve(text, out),
            "respond" => put_text(out, &self.response(text)?),
            _ => put_text(out, &self.session(text)?),
        }
    }
}
