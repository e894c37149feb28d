// Mail that differs in more than headers, told without reading one.
ghost use Rattle.std.specs.Prelude.{◌≡◌, ◌≢◌, true};

use told_mail::{Message, NumberedFolder};

// Whether the messages differ in anything but their headers.
fn message_differs(a: &Message, b: &Message) -> bool
    ensures { result ≡ true → a.now ≢ b.now }
{
    if a.uid != b.uid {
        return true;
    }
    if a.mark != b.mark {
        return true;
    }
    if a.size != b.size {
        return true;
    }
    if a.date != b.date {
        return true;
    }
    a.flags != b.flags
}

fn messages_differ(a: &[Message], b: &[Message]) -> bool
    ensures { result ≡ true → a.now ≢ b.now }
{
    if a.len() != b.len() {
        return true;
    }
    for at in 0..a.len() {
        if message_differs(&a[at], &b[at]) {
            return true;
        }
    }
    false
}

fn held_differs(a: &NumberedFolder, b: &NumberedFolder) -> bool
    ensures { result ≡ true → a.now ≢ b.now }
{
    if a.folder != b.folder {
        return true;
    }
    messages_differ(a.messages.as_slice(), b.messages.as_slice())
}

/// Whether the folders differ, or their messages in anything but headers: true only where they do.
pub fn folders_differ(a: &[NumberedFolder], b: &[NumberedFolder]) -> bool
    ensures { result ≡ true → a.now ≢ b.now }
{
    if a.len() != b.len() {
        return true;
    }
    for at in 0..a.len() {
        if held_differs(&a[at], &b[at]) {
            return true;
        }
    }
    false
}
