// The names of roles.
ghost use Rattle.std.specs.Prelude.{◌≡◌};
ghost use Rattle.served_types.specs.Roles.{role_name};

use mail_maps::Role;

/// The name of a role (RFC 8621 section 2).
pub fn role_text(role: Role) -> &'static str
    ensures { result.now ≡ role_name role }
{
    match role {
        Role::Inbox => "inbox",
        Role::All => "all",
        Role::Archive => "archive",
        Role::Drafts => "drafts",
        Role::Flagged => "flagged",
        Role::Junk => "junk",
        Role::Sent => "sent",
        Role::Trash => "trash",
    }
}
