//! Which messages are served.
ghost use Rattle.std.specs.Prelude.{◌≡◌};
ghost use Rattle.mail_maps.specs.Visible as visible;

use crate::keywords::has_name;
use told_folder::Message;

/// Whether the message is an Email: it isn't to be deleted.
pub fn is_served(message: &Message) -> bool
    ensures { result ≡ visible.is_served message.now }
{
    !has_name(b"\\deleted", &message.flags)
}
