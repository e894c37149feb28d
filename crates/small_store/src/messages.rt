// Commands that change messages (RFC 9051 sections 6.3.12 and 6.4.6 to 6.4.9). Where memory is wanting they change nothing.
ghost use Rattle.std.specs.Prelude.{◌≡◌, ◌<◌, ◌+◌, ◌^◌, ℕ, [], ◌∷◌, Option, Some, None, true, false, length, IfOk, OnErr, MatchOption};
ghost use Rattle.imap_types.specs.declared.code.Code.TheVariants as codes;
ghost use Rattle.imap_types.specs.declared.response.Response.TheVariants as response;
ghost use Rattle.imap_types.specs.declared.response.Status.TheVariants as status;
ghost use Rattle.imap_types.specs.Items.{no_items};
ghost use Rattle.honest_store.specs.StoreMail.{message_numbered, IsFolderNamed, StoreFolder, StoreMessage};
ghost use Rattle.honest_store.specs.WellFormed.{IsStoreMail, nearest_date};
ghost use Rattle.honest_store.specs.MessageCommands.{flags_after, is_deleted, sent_message};
ghost use Rattle.small_answers.specs.Changes.{mail_without};
ghost use Rattle.small_answers.specs.Limits as limits;
ghost use Rattle.small_mail.specs.Places.{IsFolderAt, IsMessageAt};
ghost use Rattle.small_answers.specs.Answers as answers;
ghost use Rattle.small_answers.specs.Causes.{are_same_names};
ghost use Rattle.small_store.specs.reading.Steps.{Gives, session_of};

use crate::answer::Answer;
use crate::fetches::{flag_items, sequence_number};
use crate::told::{ok_response, set_of, vanished};
use imap_types::{Code, Response};
use octets::{Bytes, Names};
use small_mail::flags::{DELETED, flags_after, has_name, kept};
use small_mail::{StoredFolder, StoredMail};
use std::alloc::{AllocError, Global};

/// The first second of the year 0, in seconds since 1970-01-01T00:00:00Z.
const FIRST_DATE: i64 = -62_167_219_200;

/// The last second of the year 9999.
const LAST_DATE: i64 = 253_402_300_799;

/// The last mod-sequence that can be told.
const LAST_MODSEQ: u64 = 9_223_372_036_854_775_807;

// ---- STORE

/// The answer that tells the flags and the mod-sequence of the message at the place.
fn tell_flags(
    alloc: Global,
    at: usize,
    uid: u32,
    flags: Names,
    modseq: u64,
) -> Result<Answer, AllocError>
    requires { at + 1 < 4294967296 }
    ensures { IfOk result (λ a. a ≡ record {
      responses = response.Fetch (at + 1) (record no_items { uid = Some uid; flags = Some flags; modseq = Some modseq }) ∷ [];
      status = status.Ok;
      code = codes.Absent;
    }) }
{
    let mut responses = Vec::with_capacity(alloc, 1)?;
    responses.push(Response::Fetch {
        seq: sequence_number(at),
        items: flag_items(uid, flags, Some(modseq)),
    })?;
    Ok(Answer::told(responses))
}

/// STORE in the folder at the place. Flags that change nothing take no mod-sequence.
pub fn store(
    alloc: Global,
    mail: &mut StoredMail,
    place: usize,
    uid: u32,
    add: bool,
    flags: &Names,
) -> Result<Answer, AllocError>
    requires folder { place < length mail.old.folders }
    requires whole { IsStoreMail mail.old }
    requires room { (f : StoreFolder) (m : StoreMessage) → IsFolderAt mail.old place f → message_numbered f.messages uid ≡ Some m
        → limits.is_last_change f ≡ true → are_same_names (flags_after add flags.now m.flags) m.flags ≡ true }
    ensures ok { IfOk result (λ a. (f : StoreFolder) (selected : Option ℕ) → IsFolderAt mail.old place f
        → Gives (answers.store_reply (session_of mail.old selected) f add flags.now (message_numbered f.messages uid)) a (session_of mail.new selected)) }
    ensures err { OnErr result (mail.new ≡ mail.old) }
{
    let folder = &mail.folders()[place];
    let Some(at) = folder.place_of(uid) else {
        return Ok(Answer::done(alloc));
    };
    let message = &folder.messages()[at];
    let flags = flags_after(alloc, add, flags.as_slice(), message.flags().as_slice())?;
    if flags == *message.flags() {
        return tell_flags(
            alloc,
            at,
            uid,
            message.flags().share(alloc)?,
            message.modseq(),
        );
    }
    let answer = tell_flags(alloc, at, uid, flags.share(alloc)?, folder.highest() + 1)?;
    mail.set_flags(place, at, flags);
    Ok(answer)
}

// ---- EXPUNGE

/// EXPUNGE in the folder at the place. Where a message ends, OK tells the new highest mod-sequence (RFC 7162 section 3.2.7).
pub fn expunge(
    alloc: Global,
    mail: &mut StoredMail,
    place: usize,
    uid: u32,
) -> Result<Answer, AllocError>
    requires folder { place < length mail.old.folders }
    requires whole { IsStoreMail mail.old }
    requires room { (f : StoreFolder) (m : StoreMessage) → IsFolderAt mail.old place f → message_numbered f.messages uid ≡ Some m
        → limits.is_last_change f ≡ true → is_deleted m ≡ false }
    ensures ok { IfOk result (λ a. (f : StoreFolder) (selected : Option ℕ) → IsFolderAt mail.old place f
        → Gives (answers.expunge_reply (session_of mail.old selected) f (message_numbered f.messages uid)) a (session_of mail.new selected)) }
    ensures err { OnErr result (mail.new ≡ mail.old) }
{
    let folder = &mail.folders()[place];
    let Some(at) = folder.place_of(uid) else {
        return Ok(Answer::done(alloc));
    };
    if !has_name(folder.messages()[at].flags().as_slice(), DELETED) {
        return Ok(Answer::done(alloc));
    }
    let highest = folder.highest() + 1;
    let mut responses = Vec::with_capacity(alloc, 1)?;
    responses.push(vanished(alloc, false, uid)?)?;
    mail.end_message(place, at)?;
    Ok(Answer::coded(responses, Code::HighestModSeq(highest)))
}

// ---- MOVE

/// What MOVE tells: COPYUID, and that the message went (RFC 4315 section 3, RFC 7162 section 3.2.10).
fn tell_move(alloc: Global, target: &StoredFolder, uid: u32) -> Result<Answer, AllocError>
    ensures { IfOk result (λ a. (m : StoreMessage) → m.uid ≡ uid
        → a ≡ record { responses = answers.move_responses m target.now; status = status.Ok; code = codes.Absent }) }
{
    let mut responses = Vec::with_capacity(alloc, 2)?;
    let from = set_of(alloc, uid)?;
    let to = set_of(alloc, target.uid_next())?;
    responses.push(ok_response(Code::CopyUid {
        validity: target.validity(),
        from,
        to,
    }))?;
    responses.push(vanished(alloc, false, uid)?)?;
    Ok(Answer::told(responses))
}

/// Whether a number of the folder at `target` would pass its end as a message comes there that ended in the folder at `source`.
/// Within one folder that takes two mod-sequences.
pub fn is_full_for_move(mail: &StoredMail, source: usize, target: usize) -> bool
    requires folder { target < length mail.now.folders }
    requires whole { IsStoreMail mail.now }
    ensures { (f t : StoreFolder) (u : ℕ) → IsFolderAt mail.now source f → limits.is_last_change f ≡ false
        → IsFolderAt (mail_without mail.now (Some f) u) target t → result ≡ limits.is_last_message t }
{
    let folder = &mail.folders()[target];
    if folder.is_last_message() {
        return true;
    }
    if source != target {
        return false;
    }
    LAST_MODSEQ - 1 <= folder.highest()
}

/// MOVE of the message at its place from the folder at `source` to that at `target`.
pub fn move_out(
    alloc: Global,
    mail: &mut StoredMail,
    source: usize,
    at: usize,
    target: usize,
) -> Result<Answer, AllocError>
    requires source { source < length mail.old.folders }
    requires target { target < length mail.old.folders }
    requires message { (f : StoreFolder) → IsFolderAt mail.old source f → at < length f.messages }
    requires room { (f : StoreFolder) → IsFolderAt mail.old source f → limits.is_last_change f ≡ false }
    requires room_there { (f t : StoreFolder) (m : StoreMessage) → IsFolderAt mail.old source f → IsMessageAt f at m
        → IsFolderAt (mail_without mail.old (Some f) m.uid) target t → limits.is_last_message t ≡ false }
    requires whole { IsStoreMail mail.old }
    ensures ok { IfOk result (λ a. (f t : StoreFolder) (m : StoreMessage) (selected : Option ℕ) → IsFolderAt mail.old source f → IsMessageAt f at m
        → IsFolderAt (mail_without mail.old (Some f) m.uid) target t
        → Gives (answers.move_reply_to (session_of mail.old selected) (mail_without mail.old (Some f) m.uid) m (Some t)) a (session_of mail.new selected)) }
    ensures err { OnErr result (mail.new ≡ mail.old) }
{
    let uid = mail.folders()[source].messages()[at].uid();
    let answer = tell_move(alloc, &mail.folders()[target], uid)?;
    mail.move_message(alloc, source, at, target)?;
    Ok(answer)
}

// ---- APPEND

/// The nearest second of the years 0 to 9999.
fn date_kept(date: i64) -> i64
    ensures { result ≡ nearest_date date }
{
    date.clamp(FIRST_DATE, LAST_DATE)
}

/// APPEND to the folder at the place.
pub fn append(
    alloc: Global,
    mail: &mut StoredMail,
    place: usize,
    flags: &Names,
    date: i64,
    message: &Bytes,
) -> Result<Answer, AllocError>
    requires folder { place < length mail.old.folders }
    requires room { (f : StoreFolder) → IsFolderAt mail.old place f → limits.is_last_message f ≡ false }
    requires whole { IsStoreMail mail.old }
    ensures ok { IfOk result (λ a. (f : StoreFolder) (selected : Option ℕ) → IsFolderAt mail.old place f
        → Gives (answers.append_reply (session_of mail.old selected) (sent_message flags.now date message.now 0 0) (Some f)) a
        (session_of mail.new selected)) }
    ensures err { OnErr result (mail.new ≡ mail.old) }
{
    let flags = kept(alloc, flags.as_slice(), &[])?;
    let octets = message.share()?;
    let validity = mail.folders()[place].validity();
    let uid = mail.put_message(place, flags, date_kept(date), octets)?;
    Ok(Answer::coded(Vec::new(alloc), Code::AppendUid { validity, uid }))
}
