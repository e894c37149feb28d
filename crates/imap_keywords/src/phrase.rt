// Fixed texts.
/// A fixed text.
#[derive(Clone, Copy)]
pub enum Phrase {
    /// After the `*` that begins a line.
    Space,
    /// The end of a line.
    Crlf,
    /// Before the set of a VANISHED (RFC 7162 section 3.2.10).
    Earlier,
    /// After a mod-sequence.
    Close,
    /// After the octet of a delimiter.
    Quote,
    /// No text, or no delimiter (RFC 9051 section 4.5).
    Nil,
}

ghost use Rattle.std.specs.Prelude.{◌≡◌};
ghost use Rattle.imap_keywords.specs.Keys as keywords;

/// Its octets, letters in lower case.
pub fn phrase_text(phrase: Phrase) -> &'static [u8]
    ensures { result.now ≡ keywords.phrase_text phrase }
{
    match phrase {
        Phrase::Space => b" ",
        Phrase::Crlf => b"\r\n",
        Phrase::Earlier => b"(earlier) ",
        Phrase::Close => b")",
        Phrase::Quote => b"\"",
        Phrase::Nil => b"nil",
    }
}
