// The type of a body in a response.
ghost use Rattle.std.specs.Prelude.{◌≡◌, ◌↔◌, codes, IfSome, MatchOption};
ghost use Rattle.http_service.specs.Responses.{IsMediaText, is_media_octet};

use std::marker::Model;
use text_words::{Class, are_all};

/// A media type as it stands in a response's head: one or more octets of printable ASCII without the space, so that it ends no line.
#[derive(Drop)]
pub struct MediaType<'a> {
    text: &'a [u8],
}

impl<'a> Model for MediaType<'a> {
    ghost use Rattle.std.specs.Prelude.{List, ℕ};
    ghost use Rattle.http_service.specs.Responses.{IsMediaText};

    ghost Value = { List ℕ };

    ghost view = { λ m. m.text.now };

    ghost invariant = { λ m. IsMediaText m.text.now };
}

/// The octets of a media type.
struct MediaOctet;

impl Class<u8> for MediaOctet {
    ghost test = { is_media_octet };

    fn has(&self, item: &u8) -> bool {
        b'!' <= *item && *item <= b'~'
    }
}

impl<'a> MediaType<'a> {
    /// The type that this text names, where it is one.
    pub fn new(text: &'a [u8]) -> Option<MediaType<'a>>
        ensures { MatchOption result (IsMediaText text.now → ⊥) (λ m. (m ≡ text.now) × IsMediaText text.now) }
    {
        if text.is_empty() || !are_all(&MediaOctet, text) {
            return None;
        }
        Some(MediaType { text })
    }

    /// The text of the type.
    pub fn as_slice(&self) -> &[u8]
        ensures text { result.now ≡ self.now }
        ensures media { IsMediaText result.now }
    {
        self.text
    }
}
