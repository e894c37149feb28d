// What is asked of a store until its mail may be read (RFC 9051 sections 6.1.1, 6.2.3 and 6.3.1, RFC 7162 section 3.2.3).
ghost use Rattle.std.specs.Prelude.{◌≡◌, ◌&&◌, IfOk, codes};
ghost use Rattle.std.specs.Str.{str_eq_ignore_ascii_case};
ghost use Rattle.std.specs.List.{list_any};
ghost use Rattle.imap_client.specs.Capabilities.{has_capability as capability_test, tells as tells_test, special_use_after as special_use_told};
ghost use Rattle.imap_client.specs.Connecting.{is_ok as ok_test, has_enabled as enabled_test, enables as enables_test, stage_after, due_at, planned_from};

use crate::plan::{Due, Plan, Refusal};
use imap_types::{Command, Response, Status};
use octets::Bytes;
use std::alloc::{AllocError, Global};
use told_mail::Exchange;

/// How far a client has come.
#[derive(Clone, Copy, Debug, PartialEq, Drop)]
pub enum Stage {
    /// Capabilities are asked before LOGIN.
    Asking,
    /// LOGIN is due.
    LoggingIn,
    /// CAPABILITY is due once more, after LOGIN or PREAUTH: what it tells now counts.
    AskingAgain,
    /// The store has IMAP4rev2 and QRESYNC; ENABLE is due.
    Enabling,
    /// QRESYNC is enabled.
    Connected,
    /// What the plan ends with.
    Failing(Refusal),
}

/// CAPABILITY, LOGIN unless the greeting was PREAUTH, CAPABILITY, ENABLE.
#[derive(Drop)]
pub struct Connection {
    /// `Asking` as it begins.
    pub stage: Stage,
    /// Whether the greeting was PREAUTH.
    pub preauth: bool,
    /// What LOGIN sends.
    pub user: Bytes,
    /// What LOGIN sends, one of the world's secrets.
    pub password: Bytes,
}

/// Whether a command was answered OK.
pub fn is_ok(status: Status) -> bool
    ensures { result ≡ ok_test status }
{
    match status {
        Status::Ok => true,
        _ => false,
    }
}

fn has_word(words: &[Bytes], word: &[u8]) -> bool
    ensures { result ≡ list_any (str_eq_ignore_ascii_case word.now) words.now }
{
    words
        .iter()
        .any(|told| word.eq_ignore_ascii_case(told.as_slice()))
}

fn has_capability(response: &Response, word: &[u8]) -> bool
    ensures { result ≡ capability_test word.now response.now }
{
    match response {
        Response::Capability(words) => has_word(words.as_slice(), word),
        _ => false,
    }
}

fn has_enabled(response: &Response, word: &[u8]) -> bool
    ensures { result ≡ enabled_test word.now response.now }
{
    match response {
        Response::Enabled(words) => has_word(words.as_slice(), word),
        _ => false,
    }
}

/// Whether the store told the capability in this exchange.
pub fn tells(x: &Exchange, word: &[u8]) -> bool
    ensures { result ≡ tells_test word.now x.now }
{
    x.responses
        .as_slice()
        .iter()
        .any(|response| has_capability(response, word))
}

/// Whether the store tells special-use attributes where they are asked, by what it told before and in this exchange.
pub fn special_use_after(before: bool, x: &Exchange) -> bool
    ensures { result ≡ special_use_told before x.now }
{
    match x.command {
        Command::Capability => tells(x, b"SPECIAL-USE"),
        _ => before,
    }
}

fn enables(x: &Exchange, word: &[u8]) -> bool
    ensures { result ≡ enables_test word.now x.now }
{
    x.responses
        .as_slice()
        .iter()
        .any(|response| has_enabled(response, word))
}

fn has_both(x: &Exchange) -> bool
    ensures { result ≡ (tells_test (codes "IMAP4rev2") x.now && tells_test (codes "QRESYNC") x.now) }
{
    tells(x, b"IMAP4rev2") && tells(x, b"QRESYNC")
}

fn is_enabled(x: &Exchange) -> bool
    ensures { result ≡ (ok_test x.now.status && enables_test (codes "QRESYNC") x.now) }
{
    is_ok(x.status) && enables(x, b"QRESYNC")
}

// The stage after an exchange.
fn next_stage(preauth: bool, stage: Stage, x: &Exchange) -> Stage
    ensures { result ≡ stage_after preauth stage x.now }
{
    match stage {
        Stage::Asking => {
            if !is_ok(x.status) {
                return Stage::Failing(Refusal::Refused);
            }
            if preauth {
                return Stage::AskingAgain;
            }
            if tells(x, b"LOGINDISABLED") {
                return Stage::Failing(Refusal::Refused);
            }
            Stage::LoggingIn
        }
        Stage::LoggingIn => {
            if is_ok(x.status) {
                Stage::AskingAgain
            } else {
                Stage::Failing(Refusal::Refused)
            }
        }
        Stage::AskingAgain => {
            if !is_ok(x.status) {
                return Stage::Failing(Refusal::Refused);
            }
            if has_both(x) {
                Stage::Enabling
            } else {
                Stage::Failing(Refusal::NoQresync)
            }
        }
        Stage::Enabling => {
            if is_enabled(x) {
                Stage::Connected
            } else {
                Stage::Failing(Refusal::NoQresync)
            }
        }
        Stage::Connected => Stage::Connected,
        Stage::Failing(why) => Stage::Failing(why),
    }
}

fn login(user: &Bytes, password: &Bytes) -> Result<Command, AllocError>
    ensures { IfOk result (λ command. command ≡ Command.Login user.now password.now) }
{
    Ok(Command::Login {
        user: user.share()?,
        password: password.share()?,
    })
}

impl Plan for Connection {
    ghost plan = { λ c. planned_from c.preauth c.user c.password c.stage };

    ghost hears = { λ c x d. d ≡ record c { stage = stage_after c.preauth c.stage x } };

    ghost keeps = { λ _ _. Unit {0} };

    fn due(&self, _alloc: Global) -> Result<Due, AllocError> {
        match self.stage {
            Stage::Asking => Ok(Due::Send(Command::Capability)),
            Stage::LoggingIn => Ok(Due::Send(login(&self.user, &self.password)?)),
            Stage::AskingAgain => Ok(Due::Send(Command::Capability)),
            Stage::Enabling => Ok(Due::Send(Command::Enable)),
            Stage::Connected => Ok(Due::Done),
            Stage::Failing(why) => Ok(Due::Fails(why)),
        }
    }

    fn hear(&mut self, _alloc: Global, x: Exchange) -> Result<(), AllocError> {
        self.stage = next_stage(self.preauth, self.stage, &x);
        Ok(())
    }
}
