// The names of folders: that of the parent, its delimiter, and the Mailbox's own name (RFC 9051 section 5.1.1).
ghost use Rattle.std.specs.Prelude.{◌≡◌, IfOk};
ghost use Rattle.std.specs.Option.{option_copied};
ghost use Rattle.mailbox_names.specs.FullNames as full;

use octets::Bytes;
use std::alloc::{AllocError, Global};
use told_mail::Folder;

/// What names of folders under the parent begin with.
fn prefix_of(alloc: Global, parent: Option<&Folder>) -> Result<Vec<u8>, AllocError>
    ensures { IfOk result (λ prefix. prefix.items ≡ full.prefix_of (option_copied parent.entry)) }
{
    let Some(parent) = parent else {
        return Ok(Vec::new(alloc));
    };
    let mut prefix = parent.name.as_slice().to_vec(alloc)?;
    if let Some(delimiter) = parent.delimiter {
        prefix.push(delimiter)?;
    }
    Ok(prefix)
}

/// The name of the folder that has this name under the parent.
pub fn full_name(alloc: Global, parent: Option<&Folder>, name: &[u8]) -> Result<Bytes, AllocError>
    ensures { IfOk result (λ whole. whole ≡ full.full_name (option_copied parent.entry) name.now) }
{
    let mut whole = prefix_of(alloc, parent)?;
    whole.extend_from_slice(name)?;
    Ok(Bytes::from_vec(whole)?)
}
