// The law of part headers.
ghost use Rattle.std.specs.Prelude.{◌≡◌, List};
ghost use Rattle.mail_header.specs.Fields.{NameAndRaw};
ghost use Rattle.mime_fields.specs.declared.header.PartHeader.{PartHeader};
ghost use Rattle.mime_fields.specs.PartHeaders.{IsPartHeader};

/// No fields are two headers of a part.
pub fn one_part_header()
    ensures { (fields : List NameAndRaw) (one other : PartHeader) → IsPartHeader fields one → IsPartHeader fields other → one ≡ other }
{}
