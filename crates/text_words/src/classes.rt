// Classes of octets, and texts that are equal but for the case of letters.
ghost use Rattle.std.specs.Prelude.{◌≡◌, ◌<◌, ◌↔◌, IsTrue, IfSome};
ghost use Rattle.text_words.specs.Octets as octets;

use crate::class::Class;

/// A space or a tab.
pub struct Blank;

/// A space, a tab, a CR or an LF.
pub struct White;

/// A digit.
pub struct Digit;

/// A letter of ASCII.
pub struct Alpha;

impl Class<u8> for Digit {
    ghost test = { octets.is_digit };

    fn has(&self, item: &u8) -> bool {
        is_digit(*item)
    }
}

impl Class<u8> for Alpha {
    ghost test = { octets.is_alpha };

    fn has(&self, item: &u8) -> bool {
        is_alpha(*item)
    }
}

impl Class<u8> for Blank {
    ghost test = { octets.is_blank };

    fn has(&self, item: &u8) -> bool {
        is_blank(*item)
    }
}

impl Class<u8> for White {
    ghost test = { octets.is_white };

    fn has(&self, item: &u8) -> bool {
        is_white(*item)
    }
}

/// Whether the octet is a space or a tab.
pub fn is_blank(octet: u8) -> bool
    ensures { result ≡ octets.is_blank octet }
{
    octet == b'\t' || octet == b' '
}

/// Whether the octet is a space, a tab, a CR or an LF.
pub fn is_white(octet: u8) -> bool
    ensures { result ≡ octets.is_white octet }
{
    octet == b' ' || octet == b'\t' || octet == b'\r' || octet == b'\n'
}

/// What a hexadecimal digit of either case counts.
pub fn hex_value(octet: u8) -> Option<u8>
    ensures value { result ≡ octets.hex_value octet }
    ensures small { IfSome result (λ v. v < 16) }
{
    match octet {
        b'0'..=b'9' => Some(octet - b'0'),
        b'A'..=b'F' => Some(octet - b'A' + 10),
        b'a'..=b'f' => Some(octet - b'a' + 10),
        _ => None,
    }
}

/// Whether the octet is a decimal digit.
pub fn is_digit(octet: u8) -> bool
    ensures { result ≡ octets.is_digit octet }
{
    b'0' <= octet && octet <= b'9'
}

/// A letter of ASCII.
pub fn is_alpha(octet: u8) -> bool
    ensures { result ≡ octets.is_alpha octet }
{
    (b'A' <= octet && octet <= b'Z') || (b'a' <= octet && octet <= b'z')
}

/// Whether the texts are equal where A to Z count as a to z.
pub fn same_text(one: &[u8], other: &[u8]) -> bool
    ensures same { IsTrue result ↔ octets.SameText one.now other.now }
    ensures test { result ≡ octets.is_same_text one.now other.now }
{
    one.eq_ignore_ascii_case(other)
}
