// Which names a Mailbox can have, whatever its siblings have (RFC 8621 section 2).
ghost use Rattle.std.specs.Prelude.{◌≡◌, ◌==◌};
ghost use Rattle.std.specs.Char.{is_ascii_control};
ghost use Rattle.std.specs.List.{list_any};
ghost use Rattle.std.specs.Option.{option_copied};
ghost use Rattle.mail_maps.specs.Mailboxes.{folders_of};
ghost use Rattle.mailbox_names.specs.FitNames as fit;

use told_mail::{Folder, Mirror};

/// The most octets of a Mailbox's name.
pub const MAX_NAME_OCTETS: usize = 255;

fn has_control(name: &[u8]) -> bool
    ensures { result ≡ list_any is_ascii_control name.now }
{
    name.iter().any(|octet| octet.is_ascii_control())
}

fn has_octet(octet: u8, name: &[u8]) -> bool
    ensures { result ≡ list_any (λ c. c == octet) name.now }
{
    name.iter().any(|other| *other == octet)
}

fn has_delimiter(delimiter: Option<u8>, name: &[u8]) -> bool
    ensures { result ≡ fit.has_delimiter delimiter name.now }
{
    match delimiter {
        None => false,
        Some(delimiter) => has_octet(delimiter, name),
    }
}

/// Whether a name has 1 to 255 octets, no control character and not the delimiter.
fn is_fit_name(delimiter: Option<u8>, name: &[u8]) -> bool
    ensures { result ≡ fit.is_fit_name delimiter name.now }
{
    !name.is_empty()
        && name.len() <= MAX_NAME_OCTETS
        && !has_control(name)
        && !has_delimiter(delimiter, name)
}

/// The delimiter of names under the parent, at the top level that of the folder with the lowest number.
fn delimiter_under(mirror: &Mirror, parent: Option<&Folder>) -> Option<u8>
    ensures { result ≡ fit.delimiter_under (folders_of mirror.now.mail.folders) (option_copied parent.entry) }
{
    match parent {
        Some(parent) => parent.delimiter,
        None => match mirror.folder_at(0) {
            Some(first) => first.delimiter,
            None => None,
        },
    }
}

/// Whether the name is INBOX at the top level, in letters of any case (RFC 9051 section 5.1).
fn is_inbox(parent: Option<&Folder>, name: &[u8]) -> bool
    ensures { result ≡ fit.is_inbox (option_copied parent.entry) name.now }
{
    match parent {
        None => b"INBOX".eq_ignore_ascii_case(name),
        Some(_) => false,
    }
}

/// Whether a Mailbox under the parent can have the name, where no sibling has it. It costs one pass over the name.
pub fn can_be_named(mirror: &Mirror, parent: Option<&Folder>, name: &[u8]) -> bool
    ensures { result ≡ fit.can_be_named (folders_of mirror.now.mail.folders) (option_copied parent.entry) name.now }
{
    is_fit_name(delimiter_under(mirror, parent), name) && !is_inbox(parent, name)
}
