// Conditions of Emails as JSON.
ghost use Rattle.std.specs.Prelude.{◌≡◌, IfOk, List, ℕ, map};
ghost use Rattle.serde_json.specs.Find.{as_str};
ghost use Rattle.serde_json.specs.View.{view};
ghost use Rattle.jmap_arguments.specs.Ids.{mailbox_letter};
ghost use Rattle.search_words.specs.SearchWords.{words_asked};
ghost use Rattle.query_arguments.specs.EmailFilters as spec;
ghost use Rattle.query_arguments.specs.EmailFilters.{of_record};
ghost use Rattle.query_arguments.specs.Readings as readings;
ghost use Rattle.query_arguments.specs.Values as values;

use crate::email_condition::EmailCondition;
use crate::reading::Reading;
use crate::values::{
    keyword_given, list_of_texts, mailbox_number, natural_of, numbers_of_ids, second_from,
};
use octets::{Bytes, Names};
use query_conditions::{Quantity, RecordCondition, TextField};
use search_words::search_words;
use serde_json::Value;
use std::alloc::{AllocError, Global};

/// A condition of the record alone.
fn record(condition: RecordCondition) -> Reading<EmailCondition>
    ensures { result ≡ Reading.Means (EmailCondition.Record condition) }
{
    Reading::Means(EmailCondition::Record(condition))
}

fn in_mailbox(value: &Value) -> Reading<EmailCondition>
    ensures { result ≡ of_record (λ id. RecordCondition.InMailbox (values.number_of_id mailbox_letter id)) (as_str (view value.now)) }
{
    match value.as_str() {
        None => Reading::Wrong,
        Some(id) => record(RecordCondition::InMailbox(mailbox_number(id))),
    }
}

fn in_mailbox_other_than(
    alloc: Global,
    value: &Value,
) -> Result<Reading<EmailCondition>, AllocError>
    ensures { IfOk result (λ r. r ≡ of_record (λ ids. RecordCondition.InMailboxOtherThan (values.mailboxes_of_ids ids)) (values.list_of_texts (view value.now))) }
{
    match list_of_texts(alloc, value)? {
        None => Ok(Reading::Wrong),
        Some(ids) => {
            let mailboxes = numbers_of_ids(alloc, &ids)?;
            Ok(record(RecordCondition::InMailboxOtherThan(mailboxes)))
        }
    }
}

fn received_before(value: &Value) -> Reading<EmailCondition>
    ensures { result ≡ of_record (λ time. RecordCondition.Before time) (values.second_from (view value.now)) }
{
    match second_from(value) {
        None => Reading::Wrong,
        Some(time) => record(RecordCondition::Before(time)),
    }
}

fn received_after(value: &Value) -> Reading<EmailCondition>
    ensures { result ≡ of_record (λ time. RecordCondition.After time) (values.second_from (view value.now)) }
{
    match second_from(value) {
        None => Reading::Wrong,
        Some(time) => record(RecordCondition::After(time)),
    }
}

fn min_size(value: &Value) -> Reading<EmailCondition>
    ensures { result ≡ of_record (λ size. RecordCondition.MinSize size) (values.natural_of (view value.now)) }
{
    match natural_of(value) {
        None => Reading::Wrong,
        Some(size) => record(RecordCondition::MinSize(size)),
    }
}

fn max_size(value: &Value) -> Reading<EmailCondition>
    ensures { result ≡ of_record (λ size. RecordCondition.MaxSize size) (values.natural_of (view value.now)) }
{
    match natural_of(value) {
        None => Reading::Wrong,
        Some(size) => record(RecordCondition::MaxSize(size)),
    }
}

fn has_keyword(alloc: Global, value: &Value) -> Result<Reading<EmailCondition>, AllocError>
    ensures { IfOk result (λ r. r ≡ of_record (λ keyword. RecordCondition.HasKeyword keyword) (values.keyword_given (view value.now))) }
{
    match keyword_given(alloc, value)? {
        None => Ok(Reading::Wrong),
        Some(keyword) => Ok(record(RecordCondition::HasKeyword(keyword))),
    }
}

fn not_keyword(alloc: Global, value: &Value) -> Result<Reading<EmailCondition>, AllocError>
    ensures { IfOk result (λ r. r ≡ of_record (λ keyword. RecordCondition.NotKeyword keyword) (values.keyword_given (view value.now))) }
{
    match keyword_given(alloc, value)? {
        None => Ok(Reading::Wrong),
        Some(keyword) => Ok(record(RecordCondition::NotKeyword(keyword))),
    }
}

fn in_thread(
    alloc: Global,
    quantity: Quantity,
    value: &Value,
) -> Result<Reading<EmailCondition>, AllocError>
    ensures { IfOk result (λ r. r ≡ readings.means (λ keyword. EmailCondition.Thread quantity keyword) (values.keyword_given (view value.now))) }
{
    match keyword_given(alloc, value)? {
        None => Ok(Reading::Wrong),
        Some(keyword) => Ok(Reading::Means(EmailCondition::Thread(quantity, keyword))),
    }
}

/// The condition that the words of a search text are to stand in a field. One that asks for too many isn't supported.
fn field_has(field: TextField, words: Option<Names>) -> Reading<EmailCondition>
    ensures { result ≡ spec.field_has field words }
{
    match words {
        None => Reading::Unsupported,
        Some(words) => record(RecordCondition::InField { field, words }),
    }
}

fn in_field(
    alloc: Global,
    field: TextField,
    value: &Value,
) -> Result<Reading<EmailCondition>, AllocError>
    ensures { IfOk result (λ r. r ≡ spec.in_field field (as_str (view value.now))) }
{
    match value.as_str() {
        None => Ok(Reading::Wrong),
        Some(text) => {
            let words = search_words(alloc, text.as_bytes())?;
            Ok(field_has(field, words))
        }
    }
}

fn header_named(
    alloc: Global,
    name: &str,
    words: Option<Names>,
) -> Result<Reading<EmailCondition>, AllocError>
    ensures { IfOk result (λ r. r ≡ Reading.Means (EmailCondition.Header name.now words)) }
{
    let name = Bytes::copy_of(alloc, name.as_bytes())?;
    Ok(Reading::Means(EmailCondition::Header(name, words)))
}

/// The condition that the words of a search text are to stand in a field of the name.
fn header_has(alloc: Global, name: &str, text: &str) -> Result<Reading<EmailCondition>, AllocError>
    ensures { IfOk result (λ r. r ≡ spec.header_has name.now (words_asked text.now)) }
{
    match search_words(alloc, text.as_bytes())? {
        None => Ok(Reading::Unsupported),
        Some(words) => header_named(alloc, name, Some(words)),
    }
}

/// The condition that a list of a field's name, and a search text, is.
fn name_and_text(alloc: Global, texts: &[&str]) -> Result<Reading<EmailCondition>, AllocError>
    ensures { IfOk result (λ r. r ≡ spec.name_and_text (map (λ t. t.now) texts.now)) }
{
    match texts {
        [name] => header_named(alloc, *name, None),
        [name, text] => header_has(alloc, *name, *text),
        _ => Ok(Reading::Wrong),
    }
}

fn header(alloc: Global, value: &Value) -> Result<Reading<EmailCondition>, AllocError>
    ensures { IfOk result (λ r. r ≡ spec.header_condition (values.list_of_texts (view value.now))) }
{
    match list_of_texts(alloc, value)? {
        None => Ok(Reading::Wrong),
        Some(texts) => name_and_text(alloc, texts.as_slice()),
    }
}

/// The condition that a member of a FilterCondition is (RFC 8621 section 4.4.1).
pub(crate) fn email_condition(
    alloc: Global,
    key: &str,
    value: &Value,
) -> Result<Reading<EmailCondition>, AllocError>
    ensures { IfOk result (λ r. r ≡ spec.email_condition_in key.now (view value.now)) }
{
    match key {
        "inMailbox" => Ok(in_mailbox(value)),
        "inMailboxOtherThan" => in_mailbox_other_than(alloc, value),
        "before" => Ok(received_before(value)),
        "after" => Ok(received_after(value)),
        "minSize" => Ok(min_size(value)),
        "maxSize" => Ok(max_size(value)),
        "allInThreadHaveKeyword" => in_thread(alloc, Quantity::All, value),
        "someInThreadHaveKeyword" => in_thread(alloc, Quantity::Some, value),
        "noneInThreadHaveKeyword" => in_thread(alloc, Quantity::None, value),
        "hasKeyword" => has_keyword(alloc, value),
        "notKeyword" => not_keyword(alloc, value),
        "from" => in_field(alloc, TextField::From, value),
        "to" => in_field(alloc, TextField::To, value),
        "cc" => in_field(alloc, TextField::Cc, value),
        "bcc" => in_field(alloc, TextField::Bcc, value),
        "subject" => in_field(alloc, TextField::Subject, value),
        "header" => header(alloc, value),
        _ => Ok(Reading::Unsupported),
    }
}
