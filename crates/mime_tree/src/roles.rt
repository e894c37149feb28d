// What a part is to the body lists of its message (RFC 8621 section 4.1.4).
ghost use Rattle.std.specs.Prelude.{◌≡◌, not, Some};
ghost use Rattle.mime_tree.specs.declared.part.Part.{out-Part};
ghost use Rattle.mime_tree.specs.Roles as roles;

use crate::head::BeforeSlash;
use crate::part::Part;
use text_words::{cut, same_text};

/// What a multipart is to the parts in it.
#[derive(Clone, Copy, PartialEq, Eq, Debug)]
pub enum Multipart {
    /// RFC 2046 section 5.1.4: its parts are versions of the same.
    Alternative,
    /// RFC 2387: a leaf directly in it is inline only as its first part.
    Related,
    /// Any other.
    Mixed,
}

/// Where a walk over the parts of a multipart stands.
#[derive(Clone, Copy)]
pub struct Walk {
    /// What the parts stand in; Mixed for the root.
    pub multipart: Multipart,
    /// Whether the multipart is an alternative, or stands in one.
    pub within: bool,
    /// Whether the text is open.
    pub text: bool,
    /// Whether the HTML is open.
    pub html: bool,
    /// Whether no part of the multipart was passed.
    pub first: bool,
}

/// What a multipart of this media type is.
pub(crate) fn multipart_of(media: &[u8]) -> Multipart
    ensures { result ≡ roles.multipart_of media.now }
{
    if same_text(media, b"multipart/alternative") {
        Multipart::Alternative
    } else if same_text(media, b"multipart/related") {
        Multipart::Related
    } else {
        Multipart::Mixed
    }
}

pub(crate) fn is_alternative(multipart: Multipart) -> bool
    ensures { result ≡ roles.is_alternative multipart }
{
    match multipart {
        Multipart::Alternative => true,
        _ => false,
    }
}

fn is_related(multipart: Multipart) -> bool
    ensures { result ≡ roles.is_related multipart }
{
    match multipart {
        Multipart::Related => true,
        _ => false,
    }
}

/// Whether the part is text/plain.
pub fn is_plain(part: &Part) -> bool
    ensures { result ≡ roles.is_plain_part part.now }
{
    same_text(part.media.as_slice(), b"text/plain")
}

pub(crate) fn is_html(part: &Part) -> bool
    ensures { result ≡ roles.is_html part.now }
{
    same_text(part.media.as_slice(), b"text/html")
}

fn is_type(media: &[u8], name: &[u8]) -> bool
    ensures { result ≡ roles.is_type media.now name.now }
{
    let (kind, _) = cut(&BeforeSlash, media);
    same_text(kind, name)
}

/// An image, audio or video.
pub(crate) fn is_media(part: &Part) -> bool
    ensures { result ≡ roles.is_media_part part.now }
{
    let media = part.media.as_slice();
    is_type(media, b"image") || is_type(media, b"audio") || is_type(media, b"video")
}

fn is_disposed(part: &Part, name: &[u8]) -> bool
    ensures { result ≡ roles.is_disposed part.now name.now }
{
    match &part.disposition {
        None => false,
        Some(disposition) => same_text(disposition.as_slice(), name),
    }
}

/// Whether the part is to be offered as an attachment: its disposition is other than inline, or it has none.
pub(crate) fn is_downloadable(part: &Part) -> bool
    ensures { result ≡ roles.is_downloadable part.now }
{
    !is_disposed(part, b"inline")
}

/// Whether a body may show it.
fn is_shown(part: &Part) -> bool
    ensures { result ≡ roles.is_shown part.now }
{
    is_plain(part) || is_html(part) || is_media(part)
}

fn is_filled(text: &[u8]) -> bool
    ensures { result ≡ not (roles.is_unnamed (Some text.now)) }
{
    match text {
        [] => false,
        [_, ..] => true,
    }
}

/// Whether the part has no name, or an empty one.
fn is_unnamed(part: &Part) -> bool
    ensures { result ≡ roles.is_unnamed (out-Part part.now).name }
{
    match &part.name {
        None => true,
        Some(name) => !is_filled(name.as_slice()),
    }
}

fn is_no_file(part: &Part) -> bool
    ensures { result ≡ roles.is_no_file part.now }
{
    is_media(part) || is_unnamed(part)
}

fn has_place(walk: Walk, part: &Part) -> bool
    ensures { result ≡ roles.has_place walk part.now }
{
    walk.first || (!is_related(walk.multipart) && is_no_file(part))
}

/// Whether the part is of the body, and no attachment.
pub(crate) fn is_inline(walk: Walk, part: &Part) -> bool
    ensures { result ≡ roles.is_inline walk part.now }
{
    !is_disposed(part, b"attachment") && (is_shown(part) && has_place(walk, part))
}

/// Whether it is no multipart that has children.
pub(crate) fn is_leaf(part: &Part) -> bool
    ensures { result ≡ roles.is_leaf part.now }
{
    part.number.is_some()
}

/// The number of a leaf.
pub(crate) fn leaf_number(part: &Part) -> u64
    ensures { result ≡ roles.leaf_number part.now }
{
    part.number.unwrap_or(0)
}
