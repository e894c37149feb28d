// The tree of a message's parts.
ghost use Rattle.std.specs.Prelude.{◌≡◌, ◌≤◌, ◌<◌, ◌+◌, ◌-◌, ◌^◌, ℕ, IfOk, MatchOption, length, slice_range};
ghost use Rattle.mime_tree.specs.declared.part.Part.{Part, out-Part};
ghost use Rattle.mime_tree.specs.Heads as heads;
ghost use Rattle.mime_tree.specs.Parts.{IsUnder, IsWithin};
ghost use Rattle.mime_tree.specs.reading.Shared.{AreShared};
ghost use Rattle.mime_tree.specs.reading.Bounds.{IsSplitBody, HasMoreParts, IsBuilt};
ghost use Rattle.mime_tree.specs.Trees.{IsLeaf, IsNode, IsMessage};

use crate::head::{Head, boundary_of, default_in, encoding_or, head_at, leaf_charset, leaf_media};
use crate::part::Part;
use crate::shared::{SharedTexts, shared_texts};
use crate::split::{Piece, SplitBody, split};
use octets::Bytes;
use std::alloc::{AllocError, Global};

/// The depth at which each part is a leaf. The root is at depth 0.
pub const MAX_DEPTH: usize = 64;

/// How many parts a message may have, leaves and multiparts together. One with more is one leaf.
pub const MAX_PARTS: usize = 10_000;

/// A part, the number after its leaves', and how many parts its tree has.
#[derive(Drop)]
struct Built {
    part: Part,
    next: u64,
    parts: usize,
}

/// The tree of the octets of a message, which may be any. A part without a header takes no memory but its own place.
pub fn parse(alloc: Global, bytes: &[u8]) -> Result<Part, AllocError>
    ensures message { IfOk result (λ p. IsMessage bytes.now p) }
    ensures within { IfOk result (λ p. (q : Part) → IsUnder q p → IsWithin q bytes.now) }
{
    let shared = shared_texts(alloc)?;
    let place = Piece {
        start: 0,
        end: bytes.len(),
    };
    let default = &shared.text_plain;
    match part_at(
        alloc, &shared, bytes, place, default, MAX_DEPTH, 1, MAX_PARTS,
    )? {
        Some(built) => Ok(part_of(built)),
        None => {
            let head = head_at(alloc, bytes, place, default)?;
            leaf(alloc, &shared, head, 1)
        }
    }
}

fn part_of(built: Built) -> Part
    ensures { result ≡ built.part }
{
    let Built {
        part,
        next: _,
        parts: _,
    } = built;
    part
}

/// A leaf, which is a tree of one part.
fn built_leaf(
    alloc: Global,
    shared: &SharedTexts,
    head: Head,
    number: u64,
) -> Result<Built, AllocError>
    requires shared { AreShared shared.now }
    requires room { number < 2 ^ 64 - 1 }
    ensures leaf { IfOk result (λ t. IsLeaf head number t.part t.next) }
    ensures one { IfOk result (λ t. t.parts ≡ 1) }
{
    Ok(Built {
        part: leaf(alloc, shared, head, number)?,
        next: number + 1,
        parts: 1,
    })
}

/// The part that stands there, where it has no more than `most` parts.
fn part_at(
    alloc: Global,
    shared: &SharedTexts,
    bytes: &[u8],
    place: Piece,
    default: &Bytes,
    more: usize,
    first: u64,
    most: usize,
) -> Result<Option<Built>, AllocError>
    requires shared { AreShared shared.now }
    requires ordered { place.start ≤ place.end }
    requires within { place.end ≤ length bytes.now }
    requires room { first + (place.end - place.start) ≤ 2 ^ 63 }
    ensures { IfOk result (λ r. MatchOption r
        (HasMoreParts most more bytes.now place.start place.end default.now first)
        (λ t. IsBuilt most more bytes.now place.start place.end default.now first t)) }
{
    if most == 0 {
        return Ok(None);
    }
    let head = head_at(alloc, bytes, place, default)?;
    if more == 0 {
        return Ok(Some(built_leaf(alloc, shared, head, first)?));
    }
    match pieces_of(alloc, bytes, &head, most - 1)? {
        SplitBody::Undelimited => Ok(Some(built_leaf(alloc, shared, head, first)?)),
        SplitBody::TooMany => Ok(None),
        SplitBody::Pieces(pieces) => {
            let mut children = Vec::with_capacity(alloc, pieces.len())?;
            let mut next = first;
            let mut parts = 1;
            for piece in pieces.as_slice() {
                let place = Piece {
                    start: head.body + piece.start,
                    end: head.body + piece.end,
                };
                let default = default_in(shared, head.media.as_slice());
                match part_at(
                    alloc,
                    shared,
                    bytes,
                    place,
                    default,
                    more - 1,
                    next,
                    most - parts,
                )? {
                    None => return Ok(None),
                    Some(built) => {
                        next = built.next;
                        parts += built.parts;
                        children.push(part_of(built))?;
                    }
                }
            }
            let part = node(shared, head, children)?;
            Ok(Some(Built { part, next, parts }))
        }
    }
}

/// The pieces of the body, where it is split by a boundary, a delimiter line comes, and they are no more than `most`.
fn pieces_of(alloc: Global, bytes: &[u8], head: &Head, most: usize) -> Result<SplitBody, AllocError>
    requires ordered { head.now.body ≤ head.now.end }
    requires within { head.now.end ≤ length bytes.now }
    ensures { IfOk result (λ r. IsSplitBody most (heads.boundary_of head.now) (slice_range bytes.now head.now.body head.now.end) r) }
{
    match boundary_of(head) {
        None => Ok(SplitBody::Undelimited),
        Some(boundary) => {
            let body = &bytes[head.body..head.end];
            split(alloc, body, boundary, most)
        }
    }
}

/// A part with no parts in it.
fn leaf(alloc: Global, shared: &SharedTexts, head: Head, number: u64) -> Result<Part, AllocError>
    requires { AreShared shared.now }
    ensures { IfOk result (λ p. IsLeaf head number p (number + 1)) }
{
    let Head {
        header,
        media,
        start,
        body,
        end,
    } = head;
    let media = leaf_media(shared, media)?;
    let charset = leaf_charset(shared, media.as_slice(), header.charset)?;
    let encoding = encoding_or(shared, header.encoding)?;
    Ok(Part {
        number: Some(number),
        media,
        charset,
        disposition: header.disposition,
        name: header.name,
        cid: header.cid,
        language: header.language,
        location: header.location,
        encoding,
        start: body,
        end,
        head_start: start,
        head_end: body,
        children: Vec::new(alloc),
    })
}

/// A multipart.
fn node(shared: &SharedTexts, head: Head, children: Vec<Part>) -> Result<Part, AllocError>
    requires { AreShared shared.now }
    ensures node { IfOk result (λ p. IsNode head p) }
    ensures children { IfOk result (λ p. (out-Part p).children.items ≡ children.items) }
{
    let Head {
        header,
        media,
        start,
        body,
        end,
    } = head;
    let encoding = encoding_or(shared, header.encoding)?;
    Ok(Part {
        number: None,
        media,
        charset: header.charset,
        disposition: header.disposition,
        name: header.name,
        cid: header.cid,
        language: header.language,
        location: header.location,
        encoding,
        start: body,
        end,
        head_start: start,
        head_end: body,
        children,
    })
}
