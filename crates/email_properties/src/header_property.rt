// Properties that header fields give: `header:{name}:as{form}:all`.
ghost use Rattle.std.specs.Prelude.{◌≡◌, map, MatchOption};
ghost use Rattle.email_properties.specs.HeaderAsked.{HeaderAsked};
ghost use Rattle.email_properties.specs.HeaderProperties as spec;
ghost use Rattle.email_properties.specs.HeaderProperties.{IsHeaderProperty};

use crate::header_form::{HeaderForm, is_permitted};
use std::marker::Model;
use text_words::{Class, cut};

/// A property `header:{name}`, with `:as{form}` and `:all` where these are asked (RFC 8621 section 4.1.3). Its texts are lent by
/// what was asked. Contracts see its fields as a record `HeaderAsked`.
#[derive(Debug, Drop)]
pub struct HeaderProperty<'a> {
    key: &'a str,
    name: &'a [u8],
    form: HeaderForm,
    all: bool,
}

impl<'a> Model for HeaderProperty<'a> {
    ghost use Rattle.email_properties.specs.HeaderAsked.{HeaderAsked};

    ghost Value = { HeaderAsked };

    ghost view = { λ h. record { key = h.key.now; name = h.name.now; form = h.form; all = h.all } };
}

impl<'a> HeaderProperty<'a> {
    /// The whole property as it was asked, which is its key in an object.
    pub fn key(&self) -> &str
        ensures { result.now ≡ self.now.key }
    {
        self.key
    }

    /// The name of the field, in the case in which it was asked: one or more octets from 33 to 126 other than the colon.
    pub fn name(&self) -> &[u8]
        ensures { result.now ≡ self.now.name }
    {
        self.name
    }

    /// The form of the field's value.
    pub fn form(&self) -> HeaderForm
        ensures { result ≡ self.now.form }
    {
        self.form
    }

    /// Whether each field of the name is asked, and not the last one alone.
    pub fn all(&self) -> bool
        ensures { result ≡ self.now.all }
    {
        self.all
    }
}

/// What every header property begins with.
const HEADER: &[u8] = b"header:";

/// The octets of a field's name.
struct NameOctet;

impl Class<u8> for NameOctet {
    ghost test = { spec.is_name_octet };

    fn has(&self, item: &u8) -> bool {
        b'!' <= *item && *item <= b'~' && *item != b':'
    }
}

/// What may stand after the name, the form that it asks, and whether it asks all fields of the name.
const ENDINGS: [(&[u8], HeaderForm, bool); 16] = [
    (b"", HeaderForm::Raw, false),
    (b":asRaw", HeaderForm::Raw, false),
    (b":asText", HeaderForm::Text, false),
    (b":asAddresses", HeaderForm::Addresses, false),
    (b":asGroupedAddresses", HeaderForm::GroupedAddresses, false),
    (b":asMessageIds", HeaderForm::MessageIds, false),
    (b":asDate", HeaderForm::Date, false),
    (b":asURLs", HeaderForm::Urls, false),
    (b":all", HeaderForm::Raw, true),
    (b":asRaw:all", HeaderForm::Raw, true),
    (b":asText:all", HeaderForm::Text, true),
    (b":asAddresses:all", HeaderForm::Addresses, true),
    (
        b":asGroupedAddresses:all",
        HeaderForm::GroupedAddresses,
        true,
    ),
    (b":asMessageIds:all", HeaderForm::MessageIds, true),
    (b":asDate:all", HeaderForm::Date, true),
    (b":asURLs:all", HeaderForm::Urls, true),
];

/// What is asked by the text, where it is one of these.
#[tactic(auto, unfolding(crate::specs::HeaderProperties::asked_among))]
fn asked_among(endings: &[(&[u8], HeaderForm, bool)], text: &[u8]) -> Option<(HeaderForm, bool)>
    ensures { result ≡ spec.asked_among (map (λ e. (e.0.now, e.1, e.2)) endings.now) text.now }
{
    for ending in endings {
        if ending.0 == text {
            return Some((ending.1, ending.2));
        }
    }
    None
}

/// The property of the field of this name, where the field takes the form that is asked.
fn header_asked<'a>(
    key: &'a str,
    name: &'a [u8],
    asked: Option<(HeaderForm, bool)>,
) -> Option<HeaderProperty<'a>>
    ensures { result ≡ spec.header_asked key.now name.now asked }
{
    let (form, all) = asked?;
    if name.is_empty() {
        None
    } else if is_permitted(name, form) {
        Some(HeaderProperty {
            key,
            name,
            form,
            all,
        })
    } else {
        None
    }
}

/// The property, where the field and what is asked of it stand after `header:`.
fn header_of<'a>(key: &'a str, field: &'a [u8]) -> Option<HeaderProperty<'a>>
    ensures { result ≡ spec.header_of key.now field.now }
{
    let (name, ending) = cut(&NameOctet, field);
    header_asked(key, name, asked_among(&ENDINGS, ending))
}

fn header_in(key: &str) -> Option<HeaderProperty<'_>>
    ensures { result ≡ spec.header_in key.now }
{
    match key.as_bytes().strip_prefix(HEADER) {
        None => None,
        Some(field) => header_of(key, field),
    }
}

/// The property that the text is, where it is a header property of a field that takes the form.
pub fn header_property_named(key: &str) -> Option<HeaderProperty<'_>>
    ensures value { result ≡ spec.header_in key.now }
    ensures grammar { MatchOption result ((h : HeaderAsked) → IsHeaderProperty h key.now → ⊥) (λ h. IsHeaderProperty h key.now) }
{
    header_in(key)
}
