// The fields of a header by which Emails are threaded, filtered and ordered.
ghost use Rattle.std.specs.Prelude.{◌≡◌, []};
ghost use Rattle.std.specs.Option.{unwrap_or};

use octets::Bytes;
use thread_rule::Ids;

/// An address field: the text in which it is searched, and its first mailbox, by its name or else its address.
#[derive(Debug, PartialEq, Drop)]
pub struct AddressField {
    /// None where the header has no such field.
    pub text: Option<Bytes>,
    /// The mailbox's name where it has one that isn't empty, and else its address. None where the field is missing, is no
    /// list of addresses or has no mailbox.
    pub first: Option<Bytes>,
}

/// The fields of a header by which Emails are threaded, filtered and ordered, in the forms that this takes.
#[derive(Debug, Drop)]
pub struct Envelope {
    /// The text form of the last Subject; None where there is none.
    pub subject: Option<Bytes>,
    /// The text in which the last Cc is searched; None where there is none.
    pub cc: Option<Bytes>,
    /// That of Bcc.
    pub bcc: Option<Bytes>,
    /// The last From.
    pub from: AddressField,
    /// The last To.
    pub to: AddressField,
    /// The base subject.
    pub base: Bytes,
    /// The date, in seconds since 1970-01-01T00:00:00Z.
    pub sent_at: Option<i64>,
    /// The ids of References, In-Reply-To and Message-ID, in this order, each once.
    pub ids: Ids,
}

/// The text, the empty one where there is none.
pub fn text_or_empty(text: &Option<Bytes>) -> &[u8]
    ensures { result.now ≡ unwrap_or text.now [] }
{
    match text {
        None => &[],
        Some(text) => text.as_slice(),
    }
}
