// What the user may do in a Mailbox.
ghost use Rattle.std.specs.Prelude.{◌≡◌};
ghost use Rattle.mail_maps.specs.Rights as rights;

use crate::Rights;
use crate::roles::{has, is_inbox};
use told_folder::Folder;

fn is_selectable(folder: &Folder) -> bool
    ensures { result ≡ rights.is_selectable folder.now }
{
    !has(b"\\noselect", folder) && !has(b"\\nonexistent", folder)
}

/// Whether the folder can have children.
fn takes_children(folder: &Folder) -> bool
    ensures { result ≡ rights.takes_children folder.now }
{
    folder.delimiter.is_some() && !has(b"\\noinferiors", folder)
}

/// Whether the folder can be renamed and deleted.
fn is_own(folder: &Folder) -> bool
    ensures { result ≡ rights.is_own folder.now }
{
    !is_inbox(folder) && !has(b"\\nonexistent", folder)
}

/// What the user may do in the Mailbox of a folder (RFC 8621 section 2, myRights).
pub fn rights_of(folder: &Folder) -> Rights
    ensures { result ≡ rights.rights_of folder.now }
{
    let selectable = is_selectable(folder);
    let own = is_own(folder);
    Rights {
        may_read_items: selectable,
        may_add_items: selectable,
        may_remove_items: selectable,
        may_set_seen: selectable,
        may_set_keywords: selectable,
        may_create_child: takes_children(folder),
        may_rename: own,
        may_delete: own,
        may_submit: selectable,
    }
}
