// The fields of a draft's own (RFC 5322 section 3.6).
ghost use Rattle.std.specs.Prelude.{◌≡◌, codes, OnOk};
ghost use Rattle.message_texts.specs.Fields as fields;
ghost use Rattle.message_lines.specs.Folding.{begun};
ghost use Rattle.message_texts.specs.DateTexts.{IsDateText};
ghost use Rattle.message_lines.specs.Subjects.{IsSubject};
ghost use Rattle.message_lines.specs.Ids.{AreIdTexts};

use crate::addresses::push_address_list;
use crate::dates::date_text;
use mail_drafts::{Draft, Mailbox};
use message_lines::{Outline, begin_field, drawn_id, end_line, push_ids, push_piece, push_subject};
use octets::{Listed, Names, Text};
use std::alloc::{AllocError, Global};
use zoned_moments::{ZonedMoment, in_utc};

/// Adds Date; `now` is the present second.
fn push_date_field(
    alloc: Global,
    text: &mut Outline,
    date: Option<ZonedMoment>,
    now: i64,
) -> Result<(), AllocError>
    ensures { OnOk result (fields.AddsFields (fields.IsWrittenField (IsDateText (fields.date_or_now now date)) (codes "Date")) text.old text.new) }
{
    let moment = match date {
        None => in_utc(now),
        Some(moment) => moment,
    };
    let value = date_text(alloc, moment)?;
    let line = begin_field(text, "Date")?;
    push_piece(text, line, value.as_slice(), false)?;
    end_line(text)
}

/// Adds a field of addresses, where there are any.
fn push_address_field(
    alloc: Global,
    text: &mut Outline,
    name: &str,
    list: &Option<Listed<Mailbox>>,
) -> Result<(), AllocError>
    ensures { OnOk result (fields.AddsFields (fields.AreAddressFields name.now list.now) text.old text.new) }
{
    match list {
        None => Ok(()),
        Some(list) => {
            let line = begin_field(text, name)?;
            push_address_list(alloc, text, line, list.as_slice())?;
            end_line(text)
        }
    }
}

/// Adds Subject, where there is one.
fn push_subject_field(
    alloc: Global,
    text: &mut Outline,
    subject: &Option<Text>,
) -> Result<(), AllocError>
    ensures { OnOk result (fields.AddsFields (fields.IsWrittenFieldOf (IsSubject (begun (codes "Subject"))) (codes "Subject") subject.now) text.old text.new) }
{
    match subject {
        None => Ok(()),
        Some(subject) => {
            let line = begin_field(text, "Subject")?;
            push_subject(alloc, text, line, subject.as_str())?;
            end_line(text)
        }
    }
}

/// Adds a field of these ids.
fn push_id_list(
    alloc: Global,
    text: &mut Outline,
    name: &str,
    ids: &Names,
) -> Result<(), AllocError>
    ensures { OnOk result (fields.AddsFields (fields.IsWrittenField (AreIdTexts ids.now) name.now) text.old text.new) }
{
    let line = begin_field(text, name)?;
    push_ids(alloc, text, line, ids)?;
    end_line(text)
}

/// Adds a field of ids, where there are any.
fn push_id_field(
    alloc: Global,
    text: &mut Outline,
    name: &str,
    ids: &Option<Names>,
) -> Result<(), AllocError>
    ensures { OnOk result (fields.AddsFields (fields.AreIdFields name.now ids.now) text.old text.new) }
{
    match ids {
        None => Ok(()),
        Some(ids) => push_id_list(alloc, text, name, ids),
    }
}

/// Adds Message-ID, which is drawn of the word where the draft has none.
fn push_message_id(
    alloc: Global,
    text: &mut Outline,
    ids: &Option<Names>,
    word: u64,
) -> Result<(), AllocError>
    ensures { OnOk result (fields.AddsFields (fields.IsWrittenField (AreIdTexts (fields.ids_or_drawn word ids.now)) (codes "Message-ID")) text.old text.new) }
{
    match ids {
        None => {
            let drawn = drawn_id(alloc, word)?;
            push_id_list(alloc, text, "Message-ID", &drawn)
        }
        Some(ids) => push_id_list(alloc, text, "Message-ID", ids),
    }
}

/// Adds the fields of a draft; `now` is the present second, and the word was drawn for its id.
pub(crate) fn push_draft_fields(
    alloc: Global,
    text: &mut Outline,
    draft: &Draft,
    now: i64,
    word: u64,
) -> Result<(), AllocError>
    ensures { OnOk result (fields.AddsFields (fields.AreDraftFields draft.now now word) text.old text.new) }
{
    push_date_field(alloc, text, draft.date, now)?;
    push_address_field(alloc, text, "From", &draft.from)?;
    push_address_field(alloc, text, "Sender", &draft.sender)?;
    push_address_field(alloc, text, "Reply-To", &draft.reply_to)?;
    push_address_field(alloc, text, "To", &draft.to)?;
    push_address_field(alloc, text, "Cc", &draft.cc)?;
    push_address_field(alloc, text, "Bcc", &draft.bcc)?;
    push_subject_field(alloc, text, &draft.subject)?;
    push_message_id(alloc, text, &draft.message_id, word)?;
    push_id_field(alloc, text, "In-Reply-To", &draft.in_reply_to)?;
    push_id_field(alloc, text, "References", &draft.references)
}
