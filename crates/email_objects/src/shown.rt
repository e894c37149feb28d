// The object that `show` writes.
ghost use Rattle.std.specs.Prelude.{◌≡◌, false, Some, IfOk};
ghost use Rattle.serde_json.specs.View.{view};
ghost use Rattle.serde_json.specs.Written.{has_float};
ghost use Rattle.email_properties.specs.Wanted.{body_asked, email_asked};
ghost use Rattle.email_objects.specs.EmailObjects.{IsParsedObject, IsShownObject, shown_asked};

use crate::objects::parsed_value;
use blob_store::blob_id::blob_id;
use body_parts::ParsedMessage;
use email_properties::{BodyWanted, Defaults, EmailWanted, email_defaults, part_defaults};
use serde_json::Value;
use std::alloc::{AllocError, Global};

/// All values of the body, none of them cut.
fn shown_body<'a>(alloc: Global) -> Result<BodyWanted<'a>, AllocError>
    ensures { IfOk result (λ body. body_asked body ≡ shown_asked.body) }
{
    Ok(BodyWanted {
        parts: part_defaults(alloc)?,
        text_values: false,
        html_values: false,
        all_values: true,
        max_octets: 0,
    })
}

/// The default properties of an Email/parse.
fn shown_wanted<'a>(alloc: Global) -> Result<EmailWanted<'a>, AllocError>
    ensures { IfOk result (λ wanted. email_asked wanted ≡ shown_asked) }
{
    let properties = email_defaults(alloc, Defaults::Parse)?;
    let body = shown_body(alloc)?;
    Ok(EmailWanted { properties, body })
}

/// The object of octets that have this blob id.
fn shown_value(alloc: Global, octets: &[u8], id: &[u8]) -> Result<Value, AllocError>
    ensures object { IfOk result (λ value. IsParsedObject (Some id.now) (record { octets = octets.now; id = Some id.now }) shown_asked (view value)) }
    ensures whole { IfOk result (λ value. has_float (view value) ≡ false) }
{
    let wanted = shown_wanted(alloc)?;
    let id = Some(id);
    parsed_value(alloc, id, &ParsedMessage { octets, id }, &wanted)
}

/// The object of octets that are no Email, as an Email/parse answers it (RFC 8621 section 4.9) with its default properties and all values
/// of the body, none of them cut. The octets have the blob id of an upload. Any octets are a message.
pub fn email_object(alloc: Global, octets: &[u8]) -> Result<Value, AllocError>
    ensures object { IfOk result (λ value. IsShownObject octets.now (view value)) }
    ensures whole { IfOk result (λ value. has_float (view value) ≡ false) }
{
    shown_value(alloc, octets, &blob_id(octets))
}
