// The properties of an Email for which its body is needed.
ghost use Rattle.std.specs.Prelude.{◌≡◌, true, Some, IsSome, OnOk, option_map};
ghost use Rattle.std.specs.Option.{option_copied};
ghost use Rattle.serde_json.specs.View.{members_view};
ghost use Rattle.email_properties.specs.Wanted as wants;
ghost use Rattle.email_properties.specs.Wanted.{email_asked};
ghost use Rattle.body_parts.specs.Messages.{message_data};
ghost use Rattle.email_objects.specs.EmailObjects.{AddsBody};

use body_parts::{ParsedMessage, put_body_properties};
use email_properties::{EmailWanted, needs_body};
use serde_json::{Map, Value};
use std::alloc::{AllocError, Global};

/// Puts the properties of the body that are asked. The message is read where one is.
pub(crate) fn put_body(
    members: &mut Map<String, Value>,
    alloc: Global,
    message: &ParsedMessage<'_>,
    wanted: &EmailWanted<'_>,
) -> Result<(), AllocError>
    ensures { OnOk result (AddsBody (Some (message_data message.now)) (email_asked wanted.now) (members_view members.old.entries) (members_view members.new.entries)) }
{
    if needs_body(wanted) {
        put_body_properties(members, alloc, message, wanted)
    } else {
        Ok(())
    }
}

/// The same of the message of an Email, which has this blob id.
pub(crate) fn put_row_body(
    members: &mut Map<String, Value>,
    alloc: Global,
    octets: Option<&[u8]>,
    id: &[u8],
    wanted: &EmailWanted<'_>,
) -> Result<(), AllocError>
    requires { wants.needs_body (email_asked wanted.now) ≡ true → IsSome octets }
    ensures { OnOk result (AddsBody (option_map (λ b. record { octets = b; id = Some id.now }) (option_copied octets.entry)) (email_asked wanted.now)
        (members_view members.old.entries) (members_view members.new.entries)) }
{
    match octets {
        None => Ok(()),
        Some(octets) => {
            let id = Some(id);
            put_body(members, alloc, &ParsedMessage { octets, id }, wanted)
        }
    }
}
