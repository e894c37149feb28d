// The walk over parts that makes the body lists of a message (RFC 8621 section 4.1.4).
ghost use Rattle.std.specs.Prelude.{◌≡◌, ◌≤◌, ◌++◌, ◌||◌, ◌&&◌, not, OnOk, length, drop, map};
ghost use Rattle.mime_tree.specs.BodyLists as body;
ghost use Rattle.mime_tree.specs.Roles as roles;
ghost use Rattle.mime_tree.specs.BodyLists.{PartLists};
ghost use Rattle.mime_tree.specs.reading.ListBuilding.{grown, attached, GainsParts, GainsBy, GainsBelow, Shares, Spreads};

use crate::part::Part;
use crate::roles::{
    Multipart, Walk, is_alternative, is_downloadable, is_html, is_inline, is_leaf, is_media,
    is_plain, leaf_number, multipart_of,
};
use std::alloc::AllocError;

/// Body lists that grow while parts are walked.
#[derive(Drop)]
pub struct Growing {
    /// Numbers of leaves, as in the lists below: those shown as plain text, in the order of the walk.
    pub text: Vec<u64>,
    /// Those shown as HTML.
    pub html: Vec<u64>,
    /// Those offered as attachments.
    pub attachments: Vec<u64>,
    /// Whether one of the attachments has a disposition other than inline, or none.
    pub has_attachment: bool,
}

/// Puts a leaf at the end of a list where that is wanted.
fn put(list: &mut Vec<u64>, wanted: bool, part: &Part) -> Result<(), AllocError>
    ensures { OnOk result (list.new.items ≡ list.old.items ++ map roles.leaf_number (body.wanted_part wanted part.now)) }
{
    if wanted {
        list.push(leaf_number(part))?;
    }
    Ok(())
}

fn add_attachment(lists: &mut Growing, part: &Part) -> Result<(), AllocError>
    ensures { OnOk result (GainsParts (grown lists.old) (grown lists.new) (body.to_attachments part.now)) }
{
    lists.attachments.push(leaf_number(part))?;
    lists.has_attachment = lists.has_attachment || is_downloadable(part);
    Ok(())
}

fn takes_plain(walk: Walk, part: &Part) -> bool
    ensures { result ≡ (walk.text && roles.is_plain_part part.now) }
{
    walk.text && is_plain(part)
}

fn takes_html(walk: Walk, part: &Part) -> bool
    ensures { result ≡ (walk.html && roles.is_html part.now) }
{
    walk.html && is_html(part)
}

fn are_both_open(walk: Walk) -> bool
    ensures { result ≡ (walk.text && walk.html) }
{
    walk.text && walk.html
}

fn is_attached_too(walk: Walk, part: &Part) -> bool
    ensures { result ≡ (roles.is_media_part part.now && not (walk.text && walk.html)) }
{
    is_media(part) && !are_both_open(walk)
}

/// Directly in an alternative.
fn add_to_its_list(lists: &mut Growing, walk: Walk, part: &Part) -> Result<(), AllocError>
    ensures { OnOk result (GainsParts (grown lists.old) (grown lists.new) (body.to_its_list walk part.now)) }
{
    if takes_plain(walk, part) {
        lists.text.push(leaf_number(part))?;
        return Ok(());
    }
    if takes_html(walk, part) {
        lists.html.push(leaf_number(part))?;
        return Ok(());
    }
    add_attachment(lists, part)
}

/// Adds an attachment where that is wanted.
fn put_attachment(lists: &mut Growing, wanted: bool, part: &Part) -> Result<(), AllocError>
    ensures { OnOk result (GainsParts (grown lists.old) (grown lists.new) (attached wanted part.now)) }
{
    if wanted {
        return add_attachment(lists, part);
    }
    Ok(())
}

/// Elsewhere than directly in an alternative.
fn add_to_open_lists(lists: &mut Growing, walk: Walk, part: &Part) -> Result<(), AllocError>
    ensures { OnOk result (GainsParts (grown lists.old) (grown lists.new) (body.to_open_lists walk part.now)) }
{
    put(&mut lists.text, walk.text, part)?;
    put(&mut lists.html, walk.html, part)?;
    put_attachment(lists, is_attached_too(walk, part), part)
}

fn add_leaf(lists: &mut Growing, walk: Walk, inline: bool, part: &Part) -> Result<(), AllocError>
    ensures { OnOk result (GainsParts (grown lists.old) (grown lists.new) (body.lists_of walk inline part.now)) }
{
    if !inline {
        return add_attachment(lists, part);
    }
    if is_alternative(walk.multipart) {
        return add_to_its_list(lists, walk, part);
    }
    add_to_open_lists(lists, walk, part)
}

fn closes(walk: Walk, inline: bool) -> bool
    ensures { result ≡ body.closes walk inline }
{
    inline && (walk.within && !is_alternative(walk.multipart))
}

fn closed(walk: Walk, part: &Part) -> Walk
    ensures { result ≡ body.closed_lists walk part.now }
{
    Walk {
        text: walk.text && !is_html(part),
        html: walk.html && !is_plain(part),
        ..walk
    }
}

/// The walk as it meets a leaf.
fn at_leaf(walk: Walk, inline: bool, part: &Part) -> Walk
    ensures { result ≡ body.at_leaf walk inline part.now }
{
    if closes(walk, inline) {
        closed(walk, part)
    } else {
        walk
    }
}

fn next(walk: Walk) -> Walk
    ensures { result ≡ body.next walk }
{
    Walk {
        first: false,
        ..walk
    }
}

fn is_within(walk: Walk, multipart: Multipart) -> bool
    ensures { result ≡ (walk.within || roles.is_alternative multipart) }
{
    walk.within || is_alternative(multipart)
}

/// The walk over the parts of a multipart.
fn into(walk: Walk, part: &Part) -> Walk
    ensures { result ≡ body.into walk part.now }
{
    let multipart = multipart_of(part.media.as_slice());
    Walk {
        multipart,
        within: is_within(walk, multipart),
        text: walk.text,
        html: walk.html,
        first: true,
    }
}

/// Puts what stands in the one list from a place on after the other.
fn copy_from(from: &Vec<u64>, place: usize, to: &mut Vec<u64>) -> Result<(), AllocError>
    requires { place ≤ length from.now.items }
    ensures { OnOk result (to.new.items ≡ to.old.items ++ drop place from.now.items) }
{
    let (_, added) = from.as_slice().split_at(place);
    to.extend_from_slice(added)?;
    Ok(())
}

/// Where text and HTML of a multipart begin at these places and one of them is empty, it takes the same as the other.
fn share(lists: &mut Growing, text: usize, html: usize) -> Result<(), AllocError>
    requires text { text ≤ length lists.old.text.items }
    requires html { html ≤ length lists.old.html.items }
    ensures { OnOk result (Shares text html (grown lists.old) (grown lists.new)) }
{
    if lists.text.len() == text {
        return copy_from(&lists.html, html, &mut lists.text);
    }
    if lists.html.len() == html {
        return copy_from(&lists.text, text, &mut lists.html);
    }
    Ok(())
}

fn is_shared(walk: Walk) -> bool
    ensures { result ≡ (roles.is_alternative walk.multipart && (walk.text && walk.html)) }
{
    is_alternative(walk.multipart) && are_both_open(walk)
}

/// The same, where the multipart is an alternative with both lists open.
fn spread(lists: &mut Growing, inner: Walk, text: usize, html: usize) -> Result<(), AllocError>
    requires text { text ≤ length lists.old.text.items }
    requires html { html ≤ length lists.old.html.items }
    ensures { OnOk result (Spreads inner text html (grown lists.old) (grown lists.new)) }
{
    if is_shared(inner) {
        return share(lists, text, html);
    }
    Ok(())
}

/// Walks the parts of a multipart.
#[cycle(walk)]
fn walk_below(lists: &mut Growing, walk: Walk, part: &Part) -> Result<(), AllocError>
    ensures { OnOk result (GainsBelow walk part.now (grown lists.old) (grown lists.new)) }
{
    let text = lists.text.len();
    let html = lists.html.len();
    let inner = into(walk, part);
    walk_parts(lists, inner, &part.children)?;
    spread(lists, inner, text, html)?;
    Ok(())
}

/// Walks parts that stand side by side.
#[cycle(walk)]
pub(crate) fn walk_parts(lists: &mut Growing, walk: Walk, parts: &[Part]) -> Result<(), AllocError>
    ensures { OnOk result (GainsBy walk parts.now (grown lists.old) (grown lists.new)) }
{
    let mut walk = walk;
    for part in parts {
        if is_leaf(part) {
            let inline = is_inline(walk, part);
            walk = at_leaf(walk, inline, part);
            add_leaf(lists, walk, inline, part)?;
        } else {
            walk_below(lists, walk, part)?;
        }
        walk = next(walk);
    }
    Ok(())
}
