// Reading an envelope from a header.
ghost use Rattle.std.specs.Prelude.{◌≡◌, ◌++◌, IfOk, OnOk};
ghost use Rattle.std.specs.Option.{option_map};
ghost use Rattle.mail_header.specs.Fields.{last_named, names_and_raws};
ghost use Rattle.thread_rule.specs.BaseSubject.{IsBaseOf};
ghost use Rattle.mail_maps.specs.reading.EndedIds.{ended};
ghost use Rattle.mail_maps.specs.Envelope as envelope;
ghost use Rattle.mail_maps.specs.Envelope.{IsEnvelopeOf, IsFieldText, IsSearchText, IsFirstOf, IsAddressFieldOf, IsTimeOf, AreIdsOf};

use crate::envelope::text_or_empty;
use crate::{AddressField, Envelope};
use header_addresses::Address;
use header_dates::{Moment, as_date};
use loose_addresses::as_loose_addresses;
use mail_header::{Fields, as_message_ids, as_search_text, as_text, fields};
use octets::{Bytes, Names};
use std::alloc::{AllocError, Global};
use thread_rule::{Ids, base_subject, push_id};

const SUBJECT: &[u8] = b"subject";

const FROM: &[u8] = b"from";

const TO: &[u8] = b"to";

const CC: &[u8] = b"cc";

const BCC: &[u8] = b"bcc";

const DATE: &[u8] = b"date";

const REFERENCES: &[u8] = b"references";

const IN_REPLY_TO: &[u8] = b"in-reply-to";

const MESSAGE_ID: &[u8] = b"message-id";

/// The text form of the last field of the name.
fn text_named(alloc: Global, fields: &Fields<'_>, name: &[u8]) -> Result<Option<Bytes>, AllocError>
    ensures { IfOk result (λ text. IsFieldText (last_named name.now (names_and_raws fields.now)) text) }
{
    match fields.last(name) {
        None => Ok(None),
        Some(raw) => {
            let text = as_text(alloc, raw)?;
            Ok(Some(text))
        }
    }
}

/// The text in which the last address field of the name is searched.
fn search_text_named(
    alloc: Global,
    fields: &Fields<'_>,
    name: &[u8],
) -> Result<Option<Bytes>, AllocError>
    ensures { IfOk result (λ text. IsSearchText (last_named name.now (names_and_raws fields.now)) text) }
{
    match fields.last(name) {
        None => Ok(None),
        Some(raw) => {
            let text = as_search_text(alloc, raw)?;
            Ok(Some(text))
        }
    }
}

/// The name of a mailbox, else its address.
fn shown_name(address: &Address) -> Result<Bytes, AllocError>
    ensures { IfOk result (λ text. text ≡ envelope.shown_name address.now) }
{
    match &address.name {
        Some(name) if !name.as_slice().is_empty() => name.share(),
        _ => address.email.share(),
    }
}

/// How the first of these mailboxes is shown.
fn first_name(addresses: &[Address]) -> Result<Option<Bytes>, AllocError>
    ensures { IfOk result (λ text. text ≡ envelope.first_mailbox addresses.now) }
{
    match addresses {
        [] => Ok(None),
        [first, ..] => {
            let name = shown_name(first)?;
            Ok(Some(name))
        }
    }
}

/// How the first mailbox of a raw value is shown.
fn first_in(alloc: Global, raw: &[u8]) -> Result<Option<Bytes>, AllocError>
    ensures { IfOk result (λ text. IsFirstOf (Some raw.now) text) }
{
    let addresses = as_loose_addresses(alloc, raw)?;
    match addresses {
        None => Ok(None),
        Some(list) => {
            let name = first_name(list.as_slice())?;
            Ok(name)
        }
    }
}

fn first_named(alloc: Global, fields: &Fields<'_>, name: &[u8]) -> Result<Option<Bytes>, AllocError>
    ensures { IfOk result (λ text. IsFirstOf (last_named name.now (names_and_raws fields.now)) text) }
{
    match fields.last(name) {
        None => Ok(None),
        Some(raw) => first_in(alloc, raw),
    }
}

fn address_field_named(
    alloc: Global,
    fields: &Fields<'_>,
    name: &[u8],
) -> Result<AddressField, AllocError>
    ensures { IfOk result (λ address_field. IsAddressFieldOf (last_named name.now (names_and_raws fields.now)) address_field) }
{
    let text = search_text_named(alloc, fields, name)?;
    let first = first_named(alloc, fields, name)?;
    Ok(AddressField { text, first })
}

fn seconds_in(moment: Option<Moment>) -> Option<i64>
    ensures { result ≡ option_map (λ m. m.seconds) moment }
{
    match moment {
        None => None,
        Some(moment) => Some(moment.seconds),
    }
}

fn time_in(alloc: Global, raw: &[u8]) -> Result<Option<i64>, AllocError>
    ensures { IfOk result (λ time. IsTimeOf (Some raw.now) time) }
{
    let moment = as_date(alloc, raw)?;
    Ok(seconds_in(moment))
}

fn time_named(alloc: Global, fields: &Fields<'_>, name: &[u8]) -> Result<Option<i64>, AllocError>
    ensures { IfOk result (λ time. IsTimeOf (last_named name.now (names_and_raws fields.now)) time) }
{
    match fields.last(name) {
        None => Ok(None),
        Some(raw) => time_in(alloc, raw),
    }
}

fn ids_in(alloc: Global, raw: &[u8]) -> Result<Names, AllocError>
    ensures { IfOk result (λ ids. AreIdsOf (Some raw.now) ids) }
{
    let ids = as_message_ids(alloc, raw)?;
    match ids {
        None => Ok(Names::new(alloc)),
        Some(ids) => Ok(ids),
    }
}

fn ids_named(alloc: Global, fields: &Fields<'_>, name: &[u8]) -> Result<Names, AllocError>
    ensures { IfOk result (λ ids. AreIdsOf (last_named name.now (names_and_raws fields.now)) ids) }
{
    match fields.last(name) {
        None => Ok(Names::new(alloc)),
        Some(raw) => ids_in(alloc, raw),
    }
}

/// Adds the ids at the end of a text, each with its `>`.
fn push_all(text: &mut Vec<u8>, ids: &Names) -> Result<(), AllocError>
    ensures { OnOk result (text.new.items ≡ text.old.items ++ ended ids.now) }
{
    for id in ids.as_slice() {
        push_id(text, id.as_slice())?;
    }
    Ok(())
}

/// The ids by which an Email names others and itself: those of References, In-Reply-To and Message-ID, in this order, each
/// once.
fn all_ids(alloc: Global, fields: &Fields<'_>) -> Result<Ids, AllocError>
    ensures { IfOk result (λ ids. envelope.AreAllIds (names_and_raws fields.now) ids) }
{
    let references = ids_named(alloc, fields, REFERENCES)?;
    let in_reply_to = ids_named(alloc, fields, IN_REPLY_TO)?;
    let message_id = ids_named(alloc, fields, MESSAGE_ID)?;
    let mut text = Vec::new(alloc);
    push_all(&mut text, &references)?;
    push_all(&mut text, &in_reply_to)?;
    push_all(&mut text, &message_id)?;
    let ids = Ids::of(alloc, text.as_slice())?;
    Ok(ids)
}

fn base_of(alloc: Global, text: &[u8]) -> Result<Bytes, AllocError>
    ensures { IfOk result (λ base. IsBaseOf text.now base) }
{
    let base = base_subject(alloc, text)?;
    Ok(base)
}

fn envelope_of(alloc: Global, fields: &Fields<'_>) -> Result<Envelope, AllocError>
    ensures { IfOk result (λ e. envelope.SaysEnvelope (names_and_raws fields.now) e) }
{
    let subject = text_named(alloc, fields, SUBJECT)?;
    let base = base_of(alloc, text_or_empty(&subject))?;
    let cc = search_text_named(alloc, fields, CC)?;
    let bcc = search_text_named(alloc, fields, BCC)?;
    let from = address_field_named(alloc, fields, FROM)?;
    let to = address_field_named(alloc, fields, TO)?;
    let sent_at = time_named(alloc, fields, DATE)?;
    let ids = all_ids(alloc, fields)?;
    Ok(Envelope {
        subject,
        cc,
        bcc,
        from,
        to,
        base,
        sent_at,
        ids,
    })
}

/// The envelope of a header. It is parsed once.
pub fn read_envelope(alloc: Global, header: &[u8]) -> Result<Envelope, AllocError>
    ensures { IfOk result (λ e. IsEnvelopeOf header.now e) }
{
    let fields = fields(alloc, header)?;
    envelope_of(alloc, &fields)
}
