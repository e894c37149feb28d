//! The visible message of a mark.
ghost use Rattle.std.specs.Prelude.{◌≡◌};
ghost use Rattle.std.specs.Option.{option_map};
ghost use Rattle.mail_maps.specs.Visible as visible;
ghost use Rattle.mail_rows.specs.reading.RowPass as passes;

use mail_maps::visible::is_served;
use told_folder::Message;
use told_mail::Mirror;

/// The message with the number of its folder, where it is visible.
fn if_served(folder: u64, message: &Message) -> Option<(u64, &Message)>
    ensures { option_map (λ p. record { folder = p.0; message = p.1.now }) result ≡ passes.if_served folder message.now }
{
    if is_served(message) {
        Some((folder, message))
    } else {
        None
    }
}

/// The visible message of a UID.
fn served_at(mirror: &Mirror, folder: u64, uid: u32) -> Option<(u64, &Message)>
    ensures { option_map (λ p. record { folder = p.0; message = p.1.now }) result ≡ passes.served_at mirror.now.mail.folders folder uid }
{
    match mirror.message(folder, uid) {
        Some(message) => if_served(folder, message),
        None => None,
    }
}

/// The visible message of a mark, with the number of its folder. It costs a look-up by mark and one by UID.
pub fn shown(mirror: &Mirror, mark: u64) -> Option<(u64, &Message)>
    ensures { option_map (λ p. record { folder = p.0; message = p.1.now }) result ≡ visible.shown mirror.now.mail.folders mark }
{
    mirror.each_is_mail();
    match mirror.place_of(mark) {
        Some((folder, uid)) => served_at(mirror, folder, uid),
        None => None,
    }
}
