// The properties that a draft may have (RFC 8621 section 4.6).
ghost use Rattle.std.specs.Prelude.{◌≡◌};
ghost use Rattle.draft_reading.specs.Names.{property_named};

/// A property that a draft may have.
#[derive(Clone, Copy, Debug, PartialEq, Eq)]
pub enum Property {
    Attachments,
    Bcc,
    BodyValues,
    Cc,
    From,
    HtmlBody,
    InReplyTo,
    Keywords,
    MailboxIds,
    MessageId,
    ReceivedAt,
    References,
    ReplyTo,
    Sender,
    SentAt,
    Subject,
    TextBody,
    To,
}

/// The property of this name.
pub(crate) fn property_named(key: &str) -> Option<Property>
    ensures { result ≡ property_named key.now }
{
    match key {
        "attachments" => Some(Property::Attachments),
        "bcc" => Some(Property::Bcc),
        "bodyValues" => Some(Property::BodyValues),
        "cc" => Some(Property::Cc),
        "from" => Some(Property::From),
        "htmlBody" => Some(Property::HtmlBody),
        "inReplyTo" => Some(Property::InReplyTo),
        "keywords" => Some(Property::Keywords),
        "mailboxIds" => Some(Property::MailboxIds),
        "messageId" => Some(Property::MessageId),
        "receivedAt" => Some(Property::ReceivedAt),
        "references" => Some(Property::References),
        "replyTo" => Some(Property::ReplyTo),
        "sender" => Some(Property::Sender),
        "sentAt" => Some(Property::SentAt),
        "subject" => Some(Property::Subject),
        "textBody" => Some(Property::TextBody),
        "to" => Some(Property::To),
        _ => None,
    }
}
