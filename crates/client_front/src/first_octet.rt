// Which first octets may begin a head.
ghost use Rattle.std.specs.Prelude.{◌≡◌};
ghost use Rattle.client_front.specs.FirstOctet as spec;

use crate::line_ends::{CR, LF};

/// Octets of a token other than letters and digits (RFC 9110 section 5.6.2).
const TOKEN_MARKS: &[u8] = b"!#$%&'*+-.^_`|~";

fn is_mark(octet: u8) -> bool
    ensures { result ≡ spec.is_mark octet }
{
    TOKEN_MARKS.contains(&octet)
}

/// Whether a head may begin with the octet: a method's first, or that of an empty line (RFC 9112 section 2.2).
pub(crate) fn can_begin(octet: u8) -> bool
    ensures { result ≡ spec.can_begin octet }
{
    octet.is_ascii_alphanumeric() || is_mark(octet) || octet == CR || octet == LF
}
