// The cause, and what to do.
ghost use Rattle.std.specs.Prelude.{◌≡◌, ◌++◌, OnOk};
ghost use Rattle.check_report.specs.CauseLines as lines;

use crate::asked::put_asked;
use crate::pieces::{digits, put};
use crate::shown::shown;
use octets::Bytes;
use std::alloc::{AllocError, Global};
use store_causes::{Asked, Breach, StoreCause};

/// Where nothing is reached.
pub const UNREACHED: &str =
    ", or it is not reached within 60 seconds: is its name right, is the store started, is the port the one of IMAP (143), does a firewall stand between?";
/// Where no greeting comes.
pub const SILENT_GREETING: &str =
    " takes the connection and says nothing for 60 seconds, or ends it: it may wait for TLS (port 993), which jmapgate does not speak; name its port without TLS, or put a tunnel in front";
/// Where the greeting is BYE.
pub const BYE_GREETING: &str =
    " says BYE instead of a greeting: it has no room, or lets nobody in from here";
/// Where what comes first is no greeting.
pub const UNREADABLE_GREETING: &str =
    ": it is another service, or speaks TLS, which jmapgate does not; name the port of IMAP without TLS";
/// Where nothing is reached, before the store's name.
pub const LISTENS: &str = "nothing listens at ";
/// Where what follows a command has no reading, before the command.
pub const SAYS_AFTER: &str = "what the store says after ";
/// The same, before the offset.
pub const AT_OCTET: &str = " cannot be read at octet ";
/// The same, after it.
pub const OF_CONNECTION: &str = " of the connection";
/// Where another command is answered.
pub const STRAY: &str = "the store answers another command than ";
/// Where more comes than an exchange may have.
pub const TOO_MUCH: &str = "the store gives more than 1073741824 octets to ";
/// Where LOGIN is refused, before the user.
pub const LETS_NOT: &str = "the store does not let ";
/// Where a folder is refused, before its name.
pub const NAMES: &str = "the store names the folder ";
/// Where the link fails after a command.
pub const SILENT: &str = "the store says nothing for 60 seconds, or ends the connection, after ";
/// What may tell more.
pub const LOG: &str = ": the log of the store may say why";
/// Where LOGIN isn't allowed.
pub const LOGIN_DISABLED: &str =
    "the store allows no LOGIN on this connection (LOGINDISABLED), mostly since it is not TLS: let it allow that (Dovecot: auth_allow_cleartext = yes, before 2.4 disable_plaintext_auth = no), connect from its own machine, or put a tunnel in front";
/// Where LOGIN is refused.
pub const LOGIN_REFUSED: &str =
    " in: the password in JMAPGATE_PASSWORD is another one or is empty, or LOGIN is refused for another cause, which its log may say";
/// Where IMAP4rev2 isn't told.
pub const NO_REV2: &str =
    "once it lets the user in, the store does not tell IMAP4rev2 (RFC 9051), which jmapgate needs: Dovecot tells it with the line  imap_capability = +IMAP4rev2  in its configuration, from 2.4 on with  imap_capability { IMAP4rev2 = yes }  in three lines";
/// Where neither is told.
pub const NEITHER: &str =
    "once it lets the user in, the store tells neither IMAP4rev2 (RFC 9051) nor QRESYNC (RFC 7162), which jmapgate needs: Dovecot tells the first with the line  imap_capability = +IMAP4rev2  in its configuration, from 2.4 on with  imap_capability { IMAP4rev2 = yes }  in three lines";
/// Where QRESYNC isn't told.
pub const NO_QRESYNC: &str =
    "once it lets the user in, the store does not tell QRESYNC (RFC 7162), which jmapgate needs";
/// Where QRESYNC isn't enabled.
pub const NOT_ENABLED: &str =
    "the store tells QRESYNC (RFC 7162) and does not say that ENABLE enabled it, which jmapgate needs";
/// Where ENABLE is refused.
pub const ENABLE_REFUSED: &str =
    "the store refuses ENABLE of QRESYNC (RFC 7162), which jmapgate needs";
/// Where CAPABILITY is refused.
pub const CAPABILITY_REFUSED: &str =
    "the store refuses CAPABILITY, which every store of IMAP answers: its log may say why, or another service listens there";
/// Where LIST is refused.
pub const LIST_REFUSED: &str =
    "the store refuses LIST with RETURN (SUBSCRIBED), by which folders are asked (RFC 9051 section 6.3.9)";
/// Where a folder is refused.
pub const SELECT_REFUSED: &str =
    " and refuses to select it, so every request would fail: make it readable for the user, delete it or make it anew (Dovecot over a maildir: mailbox_list_index = no)";
/// Where what is fetched is refused.
pub const FETCH_REFUSED: &str = "the store refuses to tell the messages of the folder ";
/// Where a folder has no UIDVALIDITY.
pub const NO_VALIDITY: &str =
    "the store tells no UIDVALIDITY (RFC 9051 section 2.3.1.1) for the folder ";
/// Where SELECT is refused once a first round was done, before the folder's name.
pub const SELECT_AGAIN: &str = "the store refuses SELECT of ";
/// The same, after it.
pub const WITH_KNOWN: &str =
    ", mostly since it is asked with what is known of the folder (QRESYNC, RFC 7162 section 3.2.5)";
/// Before the beginning of octets that can't be read.
pub const BEGINS: &str = "; it begins: ";

// A greeting that doesn't come.
fn put_greeting(
    alloc: Global,
    out: &mut Vec<u8>,
    store: &[u8],
    breach: Breach,
) -> Result<(), AllocError>
    ensures { OnOk result (out.new.items ≡ out.old.items ++ lines.greeting_piece store.now breach) }
{
    match breach {
        Breach::Silent => {
            put(out, store)?;
            put(out, SILENT_GREETING.as_bytes())?;
            Ok(())
        }
        Breach::Bye => {
            put(out, store)?;
            put(out, BYE_GREETING.as_bytes())?;
            Ok(())
        }
        Breach::Unreadable { at } => {
            let at = digits(alloc, at)?;
            put(out, b"what ")?;
            put(out, store)?;
            put(out, b" says first is no greeting of IMAP, at octet ")?;
            put(out, at.as_bytes())?;
            put(out, UNREADABLE_GREETING.as_bytes())?;
            Ok(())
        }
        Breach::Stray => {
            put(out, store)?;
            put(out, b" begins with an answer")?;
            Ok(())
        }
        Breach::TooMuch => {
            put(out, store)?;
            put(out, b" gives more octets than a greeting may have")?;
            Ok(())
        }
    }
}

// A command that isn't answered.
fn put_unanswered(
    alloc: Global,
    out: &mut Vec<u8>,
    asked: &Asked,
    breach: Breach,
) -> Result<(), AllocError>
    ensures { OnOk result (out.new.items ≡ out.old.items ++ lines.unanswered_piece asked.now breach) }
{
    match breach {
        Breach::Silent => {
            put(out, SILENT.as_bytes())?;
            put_asked(alloc, out, asked)?;
            put(out, LOG.as_bytes())?;
            Ok(())
        }
        Breach::Bye => {
            put(out, b"the store says BYE after ")?;
            put_asked(alloc, out, asked)?;
            put(out, LOG.as_bytes())?;
            Ok(())
        }
        Breach::Unreadable { at } => {
            let at = digits(alloc, at)?;
            put(out, SAYS_AFTER.as_bytes())?;
            put_asked(alloc, out, asked)?;
            put(out, AT_OCTET.as_bytes())?;
            put(out, at.as_bytes())?;
            put(out, OF_CONNECTION.as_bytes())?;
            Ok(())
        }
        Breach::Stray => {
            put(out, STRAY.as_bytes())?;
            put_asked(alloc, out, asked)?;
            Ok(())
        }
        Breach::TooMuch => {
            put(out, TOO_MUCH.as_bytes())?;
            put_asked(alloc, out, asked)?;
            Ok(())
        }
    }
}

// What is answered NO or BAD.
fn put_refused(
    alloc: Global,
    out: &mut Vec<u8>,
    user: &[u8],
    asked: &Asked,
) -> Result<(), AllocError>
    ensures { OnOk result (out.new.items ≡ out.old.items ++ lines.refused_piece user.now asked.now) }
{
    match asked {
        Asked::Greeting => put(out, b"the store refuses the connection"),
        Asked::Capabilities => put(out, CAPABILITY_REFUSED.as_bytes()),
        Asked::Login => {
            put(out, LETS_NOT.as_bytes())?;
            put(out, user)?;
            put(out, LOGIN_REFUSED.as_bytes())?;
            Ok(())
        }
        Asked::Enabling => put(out, ENABLE_REFUSED.as_bytes()),
        Asked::Listing => put(out, LIST_REFUSED.as_bytes()),
        Asked::Selecting(name) => {
            let name = shown(alloc, name.as_slice())?;
            put(out, NAMES.as_bytes())?;
            put(out, name.as_slice())?;
            put(out, SELECT_REFUSED.as_bytes())?;
            Ok(())
        }
        Asked::Fetching(name) => {
            let name = shown(alloc, name.as_slice())?;
            put(out, FETCH_REFUSED.as_bytes())?;
            put(out, name.as_slice())?;
            put(out, LOG.as_bytes())?;
            Ok(())
        }
    }
}

fn lacking_text(rev2: bool, qresync: bool) -> &'static str
    ensures { result.now ≡ lines.lacking_piece rev2 qresync }
{
    match (rev2, qresync) {
        (true, _) => NO_QRESYNC,
        (false, true) => NO_REV2,
        (false, false) => NEITHER,
    }
}

/// Why the store can't be used, where it and the user are shown so.
pub fn put_cause(
    alloc: Global,
    out: &mut Vec<u8>,
    store: &[u8],
    user: &[u8],
    cause: &StoreCause,
) -> Result<(), AllocError>
    ensures { OnOk result (out.new.items ≡ out.old.items ++ lines.cause_piece store.now user.now cause.now) }
{
    match cause {
        StoreCause::Unreached => {
            put(out, LISTENS.as_bytes())?;
            put(out, store)?;
            put(out, UNREACHED.as_bytes())?;
            Ok(())
        }
        StoreCause::Unanswered { asked, breach } => match asked {
            Asked::Greeting => put_greeting(alloc, out, store, *breach),
            _ => put_unanswered(alloc, out, asked, *breach),
        },
        StoreCause::Refused(asked) => put_refused(alloc, out, user, asked),
        StoreCause::LoginDisabled => put(out, LOGIN_DISABLED.as_bytes()),
        StoreCause::Lacking { rev2, qresync } => {
            put(out, lacking_text(*rev2, *qresync).as_bytes())
        }
        StoreCause::NotEnabled => put(out, NOT_ENABLED.as_bytes()),
        StoreCause::NoValidity(name) => {
            let name = shown(alloc, name.as_slice())?;
            put(out, NO_VALIDITY.as_bytes())?;
            put(out, name.as_slice())?;
            Ok(())
        }
    }
}

/// Why the store can't be used, where a first round was done.
pub fn put_again(
    alloc: Global,
    out: &mut Vec<u8>,
    store: &[u8],
    user: &[u8],
    cause: &StoreCause,
) -> Result<(), AllocError>
    ensures { OnOk result (out.new.items ≡ out.old.items ++ lines.again_piece store.now user.now cause.now) }
{
    match cause {
        StoreCause::Refused(Asked::Selecting(name)) => {
            let name = shown(alloc, name.as_slice())?;
            put(out, SELECT_AGAIN.as_bytes())?;
            put(out, name.as_slice())?;
            put(out, WITH_KNOWN.as_bytes())?;
            Ok(())
        }
        _ => put_cause(alloc, out, store, user, cause),
    }
}

fn put_begun(alloc: Global, out: &mut Vec<u8>, octets: &[u8]) -> Result<(), AllocError>
    ensures { OnOk result (out.new.items ≡ out.old.items ++ lines.begun_piece octets.now) }
{
    if octets.is_empty() {
        return Ok(());
    }
    let text = shown(alloc, octets)?;
    put(out, BEGINS.as_bytes())?;
    put(out, text.as_slice())?;
    Ok(())
}

/// How octets begin that can't be read, where anything of them is told.
pub fn put_beginning(
    alloc: Global,
    out: &mut Vec<u8>,
    beginning: &Option<Bytes>,
) -> Result<(), AllocError>
    ensures { OnOk result (out.new.items ≡ out.old.items ++ lines.begins_piece beginning.now) }
{
    match beginning {
        None => Ok(()),
        Some(text) => put_begun(alloc, out, text.as_slice()),
    }
}
