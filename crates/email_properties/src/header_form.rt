// The forms of a header field's value, and which fields take them.
ghost use Rattle.std.specs.Prelude.{◌≡◌, map};
ghost use Rattle.email_properties.specs.HeaderForms as forms;

use text_words::same_text;

/// A form of a header field's value (RFC 8621 section 4.1.2).
#[derive(Clone, Copy, Debug, PartialEq, Eq)]
pub enum HeaderForm {
    /// `asRaw`: the octets of the value as a text.
    Raw,
    /// `asText`: the value unfolded, with its encoded words decoded.
    Text,
    /// `asAddresses`: a list of addresses, without their groups.
    Addresses,
    /// `asGroupedAddresses`: a list of groups of addresses.
    GroupedAddresses,
    /// `asMessageIds`: a list of message ids, without angle brackets.
    MessageIds,
    /// `asDate`: a date and time.
    Date,
    /// `asURLs`: a list of URLs, without angle brackets.
    Urls,
}

/// The fields that RFC 8621 section 4.1.2.2 names for Text.
const TEXT_FIELDS: [&[u8]; 4] = [b"subject", b"comments", b"keywords", b"list-id"];

/// Those that sections 4.1.2.3 and 4.1.2.4 name for Addresses and GroupedAddresses.
const ADDRESS_FIELDS: [&[u8]; 12] = [
    b"from",
    b"sender",
    b"reply-to",
    b"to",
    b"cc",
    b"bcc",
    b"resent-from",
    b"resent-sender",
    b"resent-reply-to",
    b"resent-to",
    b"resent-cc",
    b"resent-bcc",
];

/// Those that section 4.1.2.5 names for MessageIds.
const MESSAGE_ID_FIELDS: [&[u8]; 4] = [
    b"message-id",
    b"in-reply-to",
    b"references",
    b"resent-message-id",
];

/// Those that section 4.1.2.6 names for Date.
const DATE_FIELDS: [&[u8]; 2] = [b"date", b"resent-date"];

/// Those that section 4.1.2.7 names for URLs.
const URL_FIELDS: [&[u8]; 6] = [
    b"list-help",
    b"list-unsubscribe",
    b"list-subscribe",
    b"list-post",
    b"list-owner",
    b"list-archive",
];

/// The other fields that RFC 5322 defines.
const RAW_FIELDS: [&[u8]; 2] = [b"received", b"return-path"];

/// Whether the field is one of these, without regard to case.
#[tactic(auto, unfolding(crate::specs::HeaderForms::is_field_of))]
fn is_field_of(fields: &[&[u8]], name: &[u8]) -> bool
    ensures { result ≡ forms.is_field_of (map (λ f. f.now) fields.now) name.now }
{
    for field in fields {
        if same_text(name, *field) {
            return true;
        }
    }
    false
}

/// Whether RFC 8621 names the field for a form.
fn is_named_field(name: &[u8]) -> bool
    ensures { result ≡ forms.is_named_field name.now }
{
    is_field_of(&TEXT_FIELDS, name)
        || is_field_of(&ADDRESS_FIELDS, name)
        || is_field_of(&MESSAGE_ID_FIELDS, name)
        || is_field_of(&DATE_FIELDS, name)
        || is_field_of(&URL_FIELDS, name)
}

/// Whether a form that is named for these fields is for the field.
fn is_for(fields: &[&[u8]], name: &[u8]) -> bool
    ensures { result ≡ forms.is_for (map (λ f. f.now) fields.now) name.now }
{
    is_field_of(fields, name) || !(is_named_field(name) || is_field_of(&RAW_FIELDS, name))
}

/// Whether the field may be asked in the form (RFC 8621 sections 4.1.2.1 to 4.1.2.7): in Raw always, and else where the form is named
/// for it, or no form is and RFC 5322 doesn't define it. Names compare without regard to case.
pub fn is_permitted(name: &[u8], form: HeaderForm) -> bool
    ensures { result ≡ forms.is_permitted name.now form }
{
    match form {
        HeaderForm::Raw => true,
        HeaderForm::Text => is_for(&TEXT_FIELDS, name),
        HeaderForm::Addresses | HeaderForm::GroupedAddresses => is_for(&ADDRESS_FIELDS, name),
        HeaderForm::MessageIds => is_for(&MESSAGE_ID_FIELDS, name),
        HeaderForm::Date => is_for(&DATE_FIELDS, name),
        HeaderForm::Urls => is_for(&URL_FIELDS, name),
    }
}
