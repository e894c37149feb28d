// What is asked where no properties are named.
ghost use Rattle.std.specs.Prelude.{◌≡◌, IfOk};
ghost use Rattle.email_properties.specs.EmailProperties as emails;
ghost use Rattle.email_properties.specs.PartProperties as parts;
ghost use Rattle.email_properties.specs.Wanted as spec;

use crate::email_property::EmailProperty;
use crate::part_property::PartProperty;
use std::alloc::{AllocError, Global};

/// The method whose defaults stand where no properties are named.
#[derive(Clone, Copy, Debug, PartialEq, Eq)]
pub enum Defaults {
    /// Email/get (RFC 8621 section 4.2)
    Get,
    /// Email/parse (RFC 8621 section 4.9)
    Parse,
}

/// The properties of an Email/get.
fn email_get_defaults<'a>(alloc: Global) -> Result<Vec<EmailProperty<'a>>, AllocError>
    ensures { IfOk result (λ v. v.items ≡ emails.email_get_defaults) }
{
    Ok(Vec::from_array(
        alloc,
        [
            EmailProperty::Id,
            EmailProperty::BlobId,
            EmailProperty::ThreadId,
            EmailProperty::MailboxIds,
            EmailProperty::Keywords,
            EmailProperty::Size,
            EmailProperty::ReceivedAt,
            EmailProperty::MessageId,
            EmailProperty::InReplyTo,
            EmailProperty::References,
            EmailProperty::Sender,
            EmailProperty::From,
            EmailProperty::To,
            EmailProperty::Cc,
            EmailProperty::Bcc,
            EmailProperty::ReplyTo,
            EmailProperty::Subject,
            EmailProperty::SentAt,
            EmailProperty::HasAttachment,
            EmailProperty::Preview,
            EmailProperty::BodyValues,
            EmailProperty::TextBody,
            EmailProperty::HtmlBody,
            EmailProperty::Attachments,
        ],
    )?)
}

/// The properties of an Email/parse.
fn email_parse_defaults<'a>(alloc: Global) -> Result<Vec<EmailProperty<'a>>, AllocError>
    ensures { IfOk result (λ v. v.items ≡ emails.email_parse_defaults) }
{
    Ok(Vec::from_array(
        alloc,
        [
            EmailProperty::MessageId,
            EmailProperty::InReplyTo,
            EmailProperty::References,
            EmailProperty::Sender,
            EmailProperty::From,
            EmailProperty::To,
            EmailProperty::Cc,
            EmailProperty::Bcc,
            EmailProperty::ReplyTo,
            EmailProperty::Subject,
            EmailProperty::SentAt,
            EmailProperty::HasAttachment,
            EmailProperty::Preview,
            EmailProperty::BodyValues,
            EmailProperty::TextBody,
            EmailProperty::HtmlBody,
            EmailProperty::Attachments,
        ],
    )?)
}

/// The properties of Emails where none are named.
pub fn email_defaults<'a>(
    alloc: Global,
    defaults: Defaults,
) -> Result<Vec<EmailProperty<'a>>, AllocError>
    ensures { IfOk result (λ v. v.items ≡ spec.email_defaults defaults) }
{
    match defaults {
        Defaults::Get => email_get_defaults(alloc),
        Defaults::Parse => email_parse_defaults(alloc),
    }
}

/// The properties of parts of bodies where none are named (RFC 8621 sections 4.2 and 4.9).
pub fn part_defaults<'a>(alloc: Global) -> Result<Vec<PartProperty<'a>>, AllocError>
    ensures { IfOk result (λ v. v.items ≡ parts.part_defaults) }
{
    Ok(Vec::from_array(
        alloc,
        [
            PartProperty::PartId,
            PartProperty::BlobId,
            PartProperty::Size,
            PartProperty::Name,
            PartProperty::Type,
            PartProperty::Charset,
            PartProperty::Disposition,
            PartProperty::Cid,
            PartProperty::Language,
            PartProperty::Location,
        ],
    )?)
}
