// Roles of folders.
ghost use Rattle.std.specs.Prelude.{◌≡◌, ◌||◌, ℕ, IfOk, OnOk};
ghost use Rattle.std.specs.BTreeSet.{contains};
ghost use Rattle.std.specs.Option.{option_map};
ghost use Rattle.std.specs.Ordering.{nat_cmp};
ghost use Rattle.mail_maps.specs.Roles as roles;
ghost use Rattle.mail_maps.specs.reading.TakenRoles.{role_left, claims};

use crate::Role;
use crate::keywords::has_name;
use std::alloc::AllocError;
use std::collections::BTreeSet;
use told_folder::Folder;

/// Whether the folder has the attribute, which is given in lower case.
pub fn has(attribute: &[u8], folder: &Folder) -> bool
    ensures { result ≡ roles.has_attribute attribute.now folder.now }
{
    has_name(attribute, &folder.attributes)
}

/// Whether the folder is INBOX.
pub fn is_inbox(folder: &Folder) -> bool
    ensures { result ≡ roles.is_inbox_folder folder.now }
{
    folder.name.as_slice() == b"INBOX".as_slice()
}

/// The first of the roles that a folder has (RFC 6154).
fn role_told(folder: &Folder) -> Option<Role>
    ensures { result ≡ roles.role_told folder.now }
{
    if is_inbox(folder) {
        return Some(Role::Inbox);
    }
    if has(b"\\all", folder) {
        return Some(Role::All);
    }
    if has(b"\\archive", folder) {
        return Some(Role::Archive);
    }
    if has(b"\\drafts", folder) {
        return Some(Role::Drafts);
    }
    if has(b"\\flagged", folder) {
        return Some(Role::Flagged);
    }
    if has(b"\\junk", folder) {
        return Some(Role::Junk);
    }
    if has(b"\\sent", folder) {
        return Some(Role::Sent);
    }
    if has(b"\\trash", folder) {
        return Some(Role::Trash);
    }
    None
}

fn number_of(role: Role) -> u8
    ensures { result ≡ roles.role_number role }
{
    match role {
        Role::Inbox => 0,
        Role::All => 1,
        Role::Archive => 2,
        Role::Drafts => 3,
        Role::Flagged => 4,
        Role::Junk => 5,
        Role::Sent => 6,
        Role::Trash => 7,
    }
}

fn number_in(role: Option<Role>) -> Option<u8>
    ensures { result ≡ option_map roles.role_number role }
{
    match role {
        Some(role) => Some(number_of(role)),
        None => None,
    }
}

/// Whether two roles are the same, or neither is there.
pub fn same_role(one: Option<Role>, other: Option<Role>) -> bool
    ensures { result ≡ roles.same_role one other }
{
    number_in(one) == number_in(other)
}

/// Takes the first role of the folder, unless a folder took it before.
pub fn take_role(taken: &mut BTreeSet<u8>, folder: &Folder) -> Result<Option<Role>, AllocError>
    ensures role { IfOk result (λ role. role ≡ role_left taken.old (roles.role_told folder.now)) }
    ensures taken { OnOk result ((q : ℕ) → contains nat_cmp taken.new q ≡ (contains nat_cmp taken.old q || claims q folder.now)) }
{
    match role_told(folder) {
        None => Ok(None),
        Some(role) => {
            let is_new = taken.insert(number_of(role))?;
            if is_new { Ok(Some(role)) } else { Ok(None) }
        }
    }
}
