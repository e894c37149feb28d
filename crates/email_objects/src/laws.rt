// Laws of Email objects.
ghost use Rattle.std.specs.Prelude.{◌≡◌, ℕ, List, Option};
ghost use Rattle.serde_json.specs.Data.{Data};
ghost use Rattle.mail_maps.specs.declared.row.EmailRow.{EmailRow};
ghost use Rattle.email_properties.specs.Wanted.{EmailAsked};
ghost use Rattle.body_parts.specs.Messages.{MessageData};
ghost use Rattle.email_objects.specs.EmailObjects.{IsEmailObject, IsParsedObject};

/// No Email has two objects with the properties that are asked.
pub fn one_email_object()
    ensures { (row : EmailRow) (octets : Option (List ℕ)) (asked : EmailAsked) (d e : Data)
        → IsEmailObject row octets asked d → IsEmailObject row octets asked e → d ≡ e }
{}

/// No octets have two.
pub fn one_parsed_object()
    ensures { (blob_id : Option (List ℕ)) (m : MessageData) (asked : EmailAsked) (d e : Data)
        → IsParsedObject blob_id m asked d → IsParsedObject blob_id m asked e → d ≡ e }
{}
