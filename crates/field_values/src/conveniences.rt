// The convenience properties of an Email.
ghost use Rattle.std.specs.Prelude.{◌≡◌, None, Some, MatchOption};
ghost use Rattle.field_values.specs.HeaderProperties as spec;

use email_properties::{EmailProperty, HeaderForm};

/// The name of the field and the form of a convenience property (RFC 8621 section 4.1.3), which is the last such field in that form.
/// None of another property.
pub fn convenience(property: &EmailProperty<'_>) -> Option<(&'static [u8], HeaderForm)>
    ensures { MatchOption result (spec.convenience property.now ≡ None) (λ c. spec.convenience property.now ≡ Some (c.0.now, c.1)) }
{
    match property {
        EmailProperty::MessageId => Some((b"message-id", HeaderForm::MessageIds)),
        EmailProperty::InReplyTo => Some((b"in-reply-to", HeaderForm::MessageIds)),
        EmailProperty::References => Some((b"references", HeaderForm::MessageIds)),
        EmailProperty::Sender => Some((b"sender", HeaderForm::Addresses)),
        EmailProperty::From => Some((b"from", HeaderForm::Addresses)),
        EmailProperty::To => Some((b"to", HeaderForm::Addresses)),
        EmailProperty::Cc => Some((b"cc", HeaderForm::Addresses)),
        EmailProperty::Bcc => Some((b"bcc", HeaderForm::Addresses)),
        EmailProperty::ReplyTo => Some((b"reply-to", HeaderForm::Addresses)),
        EmailProperty::Subject => Some((b"subject", HeaderForm::Text)),
        EmailProperty::SentAt => Some((b"date", HeaderForm::Date)),
        _ => None,
    }
}
