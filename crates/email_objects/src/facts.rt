// What is told of an Email beside its body.
ghost use Rattle.std.specs.Prelude.{◌≡◌, IfOk};
ghost use Rattle.std.specs.Option.{option_copied};
ghost use Rattle.mail_header.specs.Fields.{names_and_raws};
ghost use Rattle.body_parts.specs.Messages.{message_data};
ghost use Rattle.email_objects.specs.EmailObjects.{AreFields};
ghost use Rattle.email_objects.specs.Facts as spec;
ghost use Rattle.email_objects.specs.reading.Views.{facts_data};

use crate::header_needs::{needs_header, needs_index};
use body_parts::ParsedMessage;
use email_properties::EmailProperty;
use field_values::NamedFields;
use mail_header::{Fields, fields};
use mail_maps::EmailRow;
use std::alloc::{AllocError, Global};

/// What is told of an Email beside its body.
#[derive(Drop)]
pub(crate) struct Facts<'a> {
    /// The row of the Email; None of octets that are no Email (RFC 8621 section 4.9).
    pub row: Option<&'a EmailRow>,
    /// The blob id of the message, where it has one.
    pub blob_id: Option<&'a [u8]>,
    /// Octets of the whole message.
    pub size: u64,
    /// Those of the header; none where no property of the header is asked.
    pub fields: NamedFields<'a>,
}

/// The fields of the header at the front of the octets, which is read where one of the properties needs it.
fn fields_asked<'a>(
    alloc: Global,
    header: &'a [u8],
    properties: &[EmailProperty<'_>],
) -> Result<Fields<'a>, AllocError>
    ensures { IfOk result (λ f. AreFields properties.now header.now (names_and_raws f)) }
{
    if needs_header(properties) {
        fields(alloc, header)
    } else {
        fields(alloc, b"")
    }
}

/// The same, with an index of them where many properties ask fields by their names.
fn named_fields<'a>(
    alloc: Global,
    header: &'a [u8],
    properties: &[EmailProperty<'_>],
) -> Result<NamedFields<'a>, AllocError>
    ensures { IfOk result (λ f. AreFields properties.now header.now f) }
{
    let fields = fields_asked(alloc, header, properties)?;
    NamedFields::new(alloc, fields, needs_index(properties))
}

/// What is told of an Email whose message has this blob id.
pub(crate) fn row_facts<'a>(
    alloc: Global,
    row: &'a EmailRow,
    blob_id: &'a [u8],
    properties: &[EmailProperty<'_>],
) -> Result<Facts<'a>, AllocError>
    requires { blob_id.now ≡ spec.row_blob_id row.now }
    ensures facts { IfOk result (λ e. facts_data e ≡ spec.row_facts row.now e.fields) }
    ensures fields { IfOk result (λ e. AreFields properties.now row.now.header e.fields) }
{
    let fields = named_fields(alloc, row.header.as_slice(), properties)?;
    Ok(Facts {
        row: Some(row),
        blob_id: Some(blob_id),
        size: row.size,
        fields,
    })
}

/// What is told of octets that are no Email, with the blob id that they have.
pub(crate) fn message_facts<'a>(
    alloc: Global,
    blob_id: Option<&'a [u8]>,
    message: &ParsedMessage<'a>,
    properties: &[EmailProperty<'_>],
) -> Result<Facts<'a>, AllocError>
    ensures facts { IfOk result (λ e. facts_data e ≡ spec.message_facts (option_copied blob_id.entry) (message_data message.now) e.fields) }
    ensures fields { IfOk result (λ e. AreFields properties.now message.now.octets.now e.fields) }
{
    let fields = named_fields(alloc, message.octets, properties)?;
    Ok(Facts {
        row: None,
        blob_id,
        size: message.octets.len() as u64,
        fields,
    })
}
