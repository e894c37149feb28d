// The properties of an Email.
ghost use Rattle.std.specs.Prelude.{◌≡◌, IfOk, map, option_map};
ghost use Rattle.email_properties.specs.EmailProperties as spec;
ghost use Rattle.email_properties.specs.EmailProperties.{email_property_in};
ghost use Rattle.email_properties.specs.Properties.{all_read};

use crate::header_property::{HeaderProperty, header_property_named};
use std::alloc::{AllocError, Global};

/// A property of an Email (RFC 8621 section 4.1).
#[derive(Debug, Drop)]
pub enum EmailProperty<'a> {
    /// `id`
    Id,
    /// `blobId`
    BlobId,
    /// `threadId`
    ThreadId,
    /// `mailboxIds`
    MailboxIds,
    /// `keywords`
    Keywords,
    /// `size`
    Size,
    /// `receivedAt`
    ReceivedAt,
    /// `messageId`: Message-ID as MessageIds.
    MessageId,
    /// `inReplyTo`: In-Reply-To as MessageIds.
    InReplyTo,
    /// `references`: References as MessageIds.
    References,
    /// `sender`: Sender as Addresses.
    Sender,
    /// `from`: From as Addresses.
    From,
    /// `to`: To as Addresses.
    To,
    /// `cc`: Cc as Addresses.
    Cc,
    /// `bcc`: Bcc as Addresses.
    Bcc,
    /// `replyTo`: Reply-To as Addresses.
    ReplyTo,
    /// `subject`: Subject as Text.
    Subject,
    /// `sentAt`: Date as Date.
    SentAt,
    /// `hasAttachment`
    HasAttachment,
    /// `preview`
    Preview,
    /// `bodyStructure`
    BodyStructure,
    /// `bodyValues`
    BodyValues,
    /// `textBody`
    TextBody,
    /// `htmlBody`
    HtmlBody,
    /// `attachments`
    Attachments,
    /// `headers`: every field, in Raw.
    Headers,
    /// `header:{name}`
    Header(HeaderProperty<'a>),
}

/// The property's key in an object: its name, or the whole text of a header property.
pub fn email_key<'a>(property: &'a EmailProperty<'_>) -> &'a str
    ensures { result.now ≡ spec.email_key property.now }
{
    match property {
        EmailProperty::Id => "id",
        EmailProperty::BlobId => "blobId",
        EmailProperty::ThreadId => "threadId",
        EmailProperty::MailboxIds => "mailboxIds",
        EmailProperty::Keywords => "keywords",
        EmailProperty::Size => "size",
        EmailProperty::ReceivedAt => "receivedAt",
        EmailProperty::MessageId => "messageId",
        EmailProperty::InReplyTo => "inReplyTo",
        EmailProperty::References => "references",
        EmailProperty::Sender => "sender",
        EmailProperty::From => "from",
        EmailProperty::To => "to",
        EmailProperty::Cc => "cc",
        EmailProperty::Bcc => "bcc",
        EmailProperty::ReplyTo => "replyTo",
        EmailProperty::Subject => "subject",
        EmailProperty::SentAt => "sentAt",
        EmailProperty::HasAttachment => "hasAttachment",
        EmailProperty::Preview => "preview",
        EmailProperty::BodyStructure => "bodyStructure",
        EmailProperty::BodyValues => "bodyValues",
        EmailProperty::TextBody => "textBody",
        EmailProperty::HtmlBody => "htmlBody",
        EmailProperty::Attachments => "attachments",
        EmailProperty::Headers => "headers",
        EmailProperty::Header(header) => header.key(),
    }
}

/// The property that has this name of its own.
fn named(key: &str) -> Option<EmailProperty<'_>>
    ensures { result ≡ spec.named_email_property key.now }
{
    match key {
        "id" => Some(EmailProperty::Id),
        "blobId" => Some(EmailProperty::BlobId),
        "threadId" => Some(EmailProperty::ThreadId),
        "mailboxIds" => Some(EmailProperty::MailboxIds),
        "keywords" => Some(EmailProperty::Keywords),
        "size" => Some(EmailProperty::Size),
        "receivedAt" => Some(EmailProperty::ReceivedAt),
        "messageId" => Some(EmailProperty::MessageId),
        "inReplyTo" => Some(EmailProperty::InReplyTo),
        "references" => Some(EmailProperty::References),
        "sender" => Some(EmailProperty::Sender),
        "from" => Some(EmailProperty::From),
        "to" => Some(EmailProperty::To),
        "cc" => Some(EmailProperty::Cc),
        "bcc" => Some(EmailProperty::Bcc),
        "replyTo" => Some(EmailProperty::ReplyTo),
        "subject" => Some(EmailProperty::Subject),
        "sentAt" => Some(EmailProperty::SentAt),
        "hasAttachment" => Some(EmailProperty::HasAttachment),
        "preview" => Some(EmailProperty::Preview),
        "bodyStructure" => Some(EmailProperty::BodyStructure),
        "bodyValues" => Some(EmailProperty::BodyValues),
        "textBody" => Some(EmailProperty::TextBody),
        "htmlBody" => Some(EmailProperty::HtmlBody),
        "attachments" => Some(EmailProperty::Attachments),
        "headers" => Some(EmailProperty::Headers),
        _ => None,
    }
}

/// The property that the text is.
pub fn email_property_named(key: &str) -> Option<EmailProperty<'_>>
    ensures { result ≡ email_property_in key.now }
{
    match named(key) {
        Some(property) => Some(property),
        None => match header_property_named(key) {
            Some(header) => Some(EmailProperty::Header(header)),
            None => None,
        },
    }
}

/// The properties that the texts are, or none where one isn't a property.
pub(crate) fn email_properties_named<'a>(
    alloc: Global,
    keys: &Vec<&'a str>,
) -> Result<Option<Vec<EmailProperty<'a>>>, AllocError>
    ensures { IfOk result (λ o. option_map (λ v. v.items) o ≡ all_read email_property_in (map (λ k. k.now) keys.now.items)) }
{
    let mut properties = Vec::with_capacity(alloc, keys.len())?;
    for key in keys {
        let Some(property) = email_property_named(*key) else {
            return Ok(None);
        };
        properties.push(property)?;
    }
    Ok(Some(properties))
}

/// Whether the body of the message is needed for the property.
pub(crate) fn is_of_body(property: &EmailProperty<'_>) -> bool
    ensures { result ≡ spec.is_of_body property.now }
{
    matches!(
        property,
        EmailProperty::HasAttachment
            | EmailProperty::Preview
            | EmailProperty::BodyStructure
            | EmailProperty::BodyValues
            | EmailProperty::TextBody
            | EmailProperty::HtmlBody
            | EmailProperty::Attachments
    )
}
