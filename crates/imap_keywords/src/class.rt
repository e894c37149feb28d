// Classes of octets. An octet within a literal is 256 above itself.
ghost use Rattle.std.specs.Prelude.{◌≡◌};
ghost use Rattle.imap_types.specs.Octets as octets;

/// Carriage return.
pub const CR: u16 = 13;

/// Line feed.
pub const LF: u16 = 10;

/// Whether the octet is a decimal digit.
pub fn is_digit(c: u16) -> bool
    ensures { result ≡ octets.is_digit c }
{
    b'0' as u16 <= c && c <= b'9' as u16
}

/// Whether the octet is a letter or a digit.
pub fn is_alnum(c: u16) -> bool
    ensures { result ≡ octets.is_alnum c }
{
    is_digit(c) || b'A' as u16 <= c && c <= b'Z' as u16 || b'a' as u16 <= c && c <= b'z' as u16
}

/// Whether the octet may stand in a line's text.
pub fn is_text(c: u16) -> bool
    ensures { result ≡ octets.is_text c }
{
    0 < c && c < 256 && c != CR && c != LF
}

/// Whether the octet may stand in a word: 33 to 126.
pub fn is_word(c: u16) -> bool
    ensures { result ≡ octets.is_word c }
{
    b'!' as u16 <= c && c <= b'~' as u16
}

/// Whether the octet may stand in the word of a count.
pub fn is_status_word(c: u16) -> bool
    ensures { result ≡ octets.is_status_word c }
{
    is_word(c) && c != b'(' as u16 && c != b')' as u16
}

/// Whether the octet may stand in an atom (RFC 9051 section 9, ATOM-CHAR, with `]`).
pub fn is_atom(c: u16) -> bool
    ensures { result ≡ octets.is_atom c }
{
    is_word(c)
        && c != b'(' as u16
        && c != b')' as u16
        && c != b'{' as u16
        && c != b'"' as u16
        && c != b'\\' as u16
}

/// The octet, A to Z as a to z.
pub fn lower(c: u16) -> u16
    ensures { result ≡ octets.lower c }
{
    if b'A' as u16 <= c && c <= b'Z' as u16 {
        c + 32
    } else {
        c
    }
}
