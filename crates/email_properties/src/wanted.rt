// What a call asks of each Email.
ghost use Rattle.std.specs.Prelude.{◌≡◌, map, option_map};
ghost use Rattle.serde_json.specs.View.{view};
ghost use Rattle.jmap_arguments.specs.Outcome.{Agrees};
ghost use Rattle.jmap_arguments.specs.declared.method_error.MethodError.TheVariants.{Memory};
ghost use Rattle.email_properties.specs.Wanted as spec;
ghost use Rattle.email_properties.specs.Wanted.{email_asked, email_wanted_in};

use crate::defaults::{Defaults, email_defaults, part_defaults};
use crate::email_property::{EmailProperty, email_properties_named, is_of_body};
use crate::kinds::{flag_at, natural_at, texts_given};
use crate::part_property::{PartProperty, part_properties_named};
use jmap_arguments::{MethodError, distinct, texts_or_null};
use serde_json::Value;
use std::alloc::Global;

/// What is asked of an Email's body: the properties of its parts, and which of its values (RFC 8621 section 4.2).
#[derive(Debug, Drop)]
pub struct BodyWanted<'a> {
    /// `bodyProperties`, in the order asked, each name once.
    pub parts: Vec<PartProperty<'a>>,
    /// `fetchTextBodyValues`: the values of the text parts of `textBody`.
    pub text_values: bool,
    /// `fetchHTMLBodyValues`: the values of the text parts of `htmlBody`.
    pub html_values: bool,
    /// `fetchAllBodyValues`: the values of every text part.
    pub all_values: bool,
    /// `maxBodyValueBytes`: the most octets of a value; 0 is no bound.
    pub max_octets: u64,
}

/// What is asked of an Email (RFC 8621 sections 4.2 and 4.9).
#[derive(Debug, Drop)]
pub struct EmailWanted<'a> {
    /// `properties`, in the order asked, each name once. `id` is among them only where it is asked.
    pub properties: Vec<EmailProperty<'a>>,
    /// What is asked of the body.
    pub body: BodyWanted<'a>,
}

/// The names of the properties of Emails, or none for the defaults.
fn names_asked<'a>(
    alloc: Global,
    arguments: &'a Value,
    defaults: Defaults,
) -> Result<Option<Vec<&'a str>>, MethodError>
    ensures { Agrees Memory (λ o. option_map (λ v. map (λ t. t.now) v.items) o) result (spec.names_in defaults (view arguments.now)) }
{
    match defaults {
        Defaults::Get => texts_or_null(alloc, arguments, "properties"),
        Defaults::Parse => texts_given(alloc, arguments, "properties"),
    }
}

/// The properties of Emails.
fn properties_asked<'a>(
    alloc: Global,
    arguments: &'a Value,
    defaults: Defaults,
) -> Result<Vec<EmailProperty<'a>>, MethodError>
    ensures { Agrees Memory (λ v. v.items) result (spec.properties_in defaults (view arguments.now)) }
{
    let Some(names) = names_asked(alloc, arguments, defaults)? else {
        return Ok(email_defaults(alloc, defaults)?);
    };
    let once = distinct(alloc, &names)?;
    match email_properties_named(alloc, &once)? {
        None => Err(MethodError::InvalidArguments),
        Some(properties) => Ok(properties),
    }
}

/// The properties of the parts of bodies.
fn parts_asked<'a>(
    alloc: Global,
    arguments: &'a Value,
) -> Result<Vec<PartProperty<'a>>, MethodError>
    ensures { Agrees Memory (λ v. v.items) result (spec.parts_in (view arguments.now)) }
{
    let Some(names) = texts_given(alloc, arguments, "bodyProperties")? else {
        return Ok(part_defaults(alloc)?);
    };
    let once = distinct(alloc, &names)?;
    match part_properties_named(alloc, &once)? {
        None => Err(MethodError::InvalidArguments),
        Some(properties) => Ok(properties),
    }
}

/// What is asked of bodies.
fn body_wanted<'a>(alloc: Global, arguments: &'a Value) -> Result<BodyWanted<'a>, MethodError>
    ensures { Agrees Memory spec.body_asked result (spec.body_in (view arguments.now)) }
{
    let parts = parts_asked(alloc, arguments)?;
    let text_values = flag_at(arguments, "fetchTextBodyValues")?;
    let html_values = flag_at(arguments, "fetchHTMLBodyValues")?;
    let all_values = flag_at(arguments, "fetchAllBodyValues")?;
    let max_octets = natural_at(arguments, "maxBodyValueBytes")?;
    Ok(BodyWanted {
        parts,
        text_values,
        html_values,
        all_values,
        max_octets,
    })
}

/// What the arguments of an Email/get or an Email/parse ask of each Email, with the defaults of the method. `InvalidArguments` comes
/// exactly where one of `properties`, `bodyProperties`, `fetchTextBodyValues`, `fetchHTMLBodyValues`, `fetchAllBodyValues` and
/// `maxBodyValueBytes` has a wrong kind, or a name is no property's. Of these an Email/get's `properties` alone may be null.
pub fn email_wanted<'a>(
    alloc: Global,
    arguments: &'a Value,
    defaults: Defaults,
) -> Result<EmailWanted<'a>, MethodError>
    ensures { Agrees Memory email_asked result (email_wanted_in defaults (view arguments.now)) }
{
    let properties = properties_asked(alloc, arguments, defaults)?;
    let body = body_wanted(alloc, arguments)?;
    Ok(EmailWanted { properties, body })
}

/// Whether one of the properties needs the body of the message. The others are told by the header and by what is known of the Email.
pub fn needs_body(wanted: &EmailWanted<'_>) -> bool
    ensures { result ≡ spec.needs_body (email_asked wanted.now) }
{
    for property in &wanted.properties {
        if is_of_body(property) {
            return true;
        }
    }
    false
}
