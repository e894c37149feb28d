// Which values are taken.
ghost use Rattle.std.specs.Prelude.{◌≡◌, nat_eq};
ghost use Rattle.std.specs.List.{list_any, starts_with, ends_with};
ghost use Rattle.gate_words.specs.Rules as spec;

const DELETE: u8 = 127;

fn is_control(octet: u8) -> bool
    ensures { result ≡ spec.is_control octet }
{
    octet < b' ' || octet == DELETE
}

fn has_control(text: &str) -> bool
    ensures { result ≡ list_any spec.is_control text.now }
{
    for octet in text.as_bytes() {
        if is_control(*octet) {
            return true;
        }
    }
    false
}

fn begins_with(text: &str, front: &str) -> bool
    ensures { result ≡ starts_with nat_eq text.now front.now }
{
    text.starts_with(front)
}

fn ends_in(text: &str, back: &str) -> bool
    ensures { result ≡ ends_with nat_eq text.now back.now }
{
    text.ends_with(back)
}

/// Whether a user can have this name: not empty, and without control characters.
pub(crate) fn is_user(text: &str) -> bool
    ensures { result ≡ spec.is_user text.now }
{
    !text.is_empty() && !has_control(text)
}

fn is_http(text: &str) -> bool
    ensures { result ≡ spec.is_http text.now }
{
    begins_with(text, "http://") || begins_with(text, "https://")
}

/// Whether paths can be added to this URL.
pub(crate) fn is_base(text: &str) -> bool
    ensures { result ≡ spec.is_base text.now }
{
    is_http(text) && !ends_in(text, "/") && !has_control(text)
}
