// Body lists (RFC 8621 section 4.1.4).
ghost use Rattle.std.specs.Prelude.{◌≡◌, IfOk};
ghost use Rattle.mime_tree.specs.BodyLists as body;
ghost use Rattle.mime_tree.specs.reading.ListBuilding.{grown, no_parts};

use crate::list_walk::{Growing, walk_parts};
use crate::part::Part;
use crate::roles::{Multipart, Walk};
use octets::Listed;
use std::alloc::{AllocError, Global};
use std::slice;

/// The body lists of a message, by the numbers of its leaves, and whether it has an attachment.
#[derive(Drop)]
pub struct BodyLists {
    /// What is shown as plain text.
    pub text: Listed<u64>,
    /// What is shown as HTML.
    pub html: Listed<u64>,
    /// What is offered beside the body; an image, audio or video may be in the other lists too.
    pub attachments: Listed<u64>,
    /// Whether an attachment has a disposition other than inline, or none.
    pub has_attachment: bool,
}

fn none_yet(alloc: Global) -> Growing
    ensures { grown result ≡ no_parts }
{
    Growing {
        text: Vec::new(alloc),
        html: Vec::new(alloc),
        attachments: Vec::new(alloc),
        has_attachment: false,
    }
}

/// The walk begins with the root alone, and both lists open.
fn start() -> Walk
    ensures { result ≡ body.start }
{
    Walk {
        multipart: Multipart::Mixed,
        within: false,
        text: true,
        html: true,
        first: true,
    }
}

fn listed(lists: Growing) -> BodyLists
    ensures { result ≡ grown lists }
{
    BodyLists {
        text: Listed::from_vec(lists.text),
        html: Listed::from_vec(lists.html),
        attachments: Listed::from_vec(lists.attachments),
        has_attachment: lists.has_attachment,
    }
}

/// The body lists of a tree of parts.
pub fn body_lists(alloc: Global, root: &Part) -> Result<BodyLists, AllocError>
    ensures { IfOk result (λ l. body.AreBodyLists l root.now) }
{
    let mut growing = none_yet(alloc);
    walk_parts(&mut growing, start(), slice::from_ref(root))?;
    Ok(listed(growing))
}
