// The properties of a part of a body.
ghost use Rattle.std.specs.Prelude.{◌≡◌, IfOk, map, option_map};
ghost use Rattle.email_properties.specs.PartProperties as spec;
ghost use Rattle.email_properties.specs.PartProperties.{part_property_in};
ghost use Rattle.email_properties.specs.Properties.{all_read};

use crate::header_property::{HeaderProperty, header_property_named};
use std::alloc::{AllocError, Global};

/// A property of an EmailBodyPart (RFC 8621 section 4.1.4).
#[derive(Debug, Drop)]
pub enum PartProperty<'a> {
    /// `partId`
    PartId,
    /// `blobId`
    BlobId,
    /// `size`
    Size,
    /// `name`
    Name,
    /// `type`
    Type,
    /// `charset`
    Charset,
    /// `disposition`
    Disposition,
    /// `cid`
    Cid,
    /// `language`
    Language,
    /// `location`
    Location,
    /// `subParts`
    SubParts,
    /// `headers`: every field of the part, in Raw.
    Headers,
    /// `header:{name}`
    Header(HeaderProperty<'a>),
}

/// The property's key in an object: its name, or the whole text of a header property.
pub fn part_key<'a>(property: &'a PartProperty<'_>) -> &'a str
    ensures { result.now ≡ spec.part_key property.now }
{
    match property {
        PartProperty::PartId => "partId",
        PartProperty::BlobId => "blobId",
        PartProperty::Size => "size",
        PartProperty::Name => "name",
        PartProperty::Type => "type",
        PartProperty::Charset => "charset",
        PartProperty::Disposition => "disposition",
        PartProperty::Cid => "cid",
        PartProperty::Language => "language",
        PartProperty::Location => "location",
        PartProperty::SubParts => "subParts",
        PartProperty::Headers => "headers",
        PartProperty::Header(header) => header.key(),
    }
}

/// The property that has this name of its own.
fn named(key: &str) -> Option<PartProperty<'_>>
    ensures { result ≡ spec.named_part_property key.now }
{
    match key {
        "partId" => Some(PartProperty::PartId),
        "blobId" => Some(PartProperty::BlobId),
        "size" => Some(PartProperty::Size),
        "name" => Some(PartProperty::Name),
        "type" => Some(PartProperty::Type),
        "charset" => Some(PartProperty::Charset),
        "disposition" => Some(PartProperty::Disposition),
        "cid" => Some(PartProperty::Cid),
        "language" => Some(PartProperty::Language),
        "location" => Some(PartProperty::Location),
        "subParts" => Some(PartProperty::SubParts),
        "headers" => Some(PartProperty::Headers),
        _ => None,
    }
}

/// The property that the text is.
pub fn part_property_named(key: &str) -> Option<PartProperty<'_>>
    ensures { result ≡ part_property_in key.now }
{
    match named(key) {
        Some(property) => Some(property),
        None => match header_property_named(key) {
            Some(header) => Some(PartProperty::Header(header)),
            None => None,
        },
    }
}

/// The properties that the texts are, or none where one isn't a property.
pub(crate) fn part_properties_named<'a>(
    alloc: Global,
    keys: &Vec<&'a str>,
) -> Result<Option<Vec<PartProperty<'a>>>, AllocError>
    ensures { IfOk result (λ o. option_map (λ v. v.items) o ≡ all_read part_property_in (map (λ k. k.now) keys.now.items)) }
{
    let mut properties = Vec::with_capacity(alloc, keys.len())?;
    for key in keys {
        let Some(property) = part_property_named(*key) else {
            return Ok(None);
        };
        properties.push(property)?;
    }
    Ok(Some(properties))
}
