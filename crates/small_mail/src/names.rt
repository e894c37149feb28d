// Names of folders (RFC 9051 section 5.1).
ghost use Rattle.std.specs.Prelude.{◌≡◌, ◌++◌, IfOk, MatchOption, None, Some};
ghost use Rattle.imap_types.specs.Folders.{folder_name};
ghost use Rattle.honest_store.specs.FolderChanges as folders;
ghost use Rattle.small_answers.specs.Changes.{hierarchy_delimiter};

use imap_values::is_key;
use std::alloc::{AllocError, Global};

/// Stands between a folder's name and what its children add to it.
pub const DELIMITER: u8 = b'/';

/// The name as it is told: INBOX in letters of any case is `INBOX`.
pub fn told_name(name: &[u8]) -> &[u8]
    ensures { result.now ≡ folder_name name.now }
{
    if is_key(name, b"inbox") {
        b"INBOX"
    } else {
        name
    }
}

/// What follows the first text in the second; none where it begins otherwise.
#[tactic(auto, using(crate::proofs::Prefixes::text_after_is))]
fn text_after<'a>(front: &[u8], text: &'a [u8]) -> Option<&'a [u8]>
    ensures { MatchOption result (folders.text_after front.now text.now ≡ None) (λ rest. folders.text_after front.now text.now ≡ Some rest.now) }
{
    text.strip_prefix(front)
}

/// Of a name below another one, the delimiter and what follows it.
pub fn child_part<'a>(parent: &[u8], name: &'a [u8]) -> Option<&'a [u8]>
    ensures { MatchOption result (folders.child_part parent.now (Some hierarchy_delimiter) name.now ≡ None)
        (λ rest. folders.child_part parent.now (Some hierarchy_delimiter) name.now ≡ Some rest.now) }
{
    let Some(rest) = text_after(parent, name) else {
        return None;
    };
    match rest {
        [first, ..] if *first == DELIMITER => Some(rest),
        _ => None,
    }
}

/// The name and what a child adds to it.
pub fn child_name(alloc: Global, parent: &[u8], rest: &[u8]) -> Result<Vec<u8>, AllocError>
    ensures { IfOk result (λ name. name.items ≡ parent.now ++ rest.now) }
{
    let mut name = parent.to_vec(alloc)?;
    name.extend_from_slice(rest)?;
    Ok(name)
}
