// Which texts a draft may have.
ghost use Rattle.std.specs.Prelude.{◌≡◌};
ghost use Rattle.std.specs.List.{list_any};
ghost use Rattle.header_words.specs.EncodedWords.{is_control};
ghost use Rattle.mail_drafts.specs.Identifiers as identifiers;
ghost use Rattle.mail_drafts.specs.Lines as lines;
ghost use Rattle.mail_drafts.specs.Mailboxes as mailboxes;
ghost use Rattle.mail_drafts.specs.MediaTypes as media_types;
ghost use Rattle.draft_reading.specs.Parts as parts;

use header_words::words::is_control;
use message_lines::has_word_mark;
use text_words::{Class, are_all, cut, same_text};

fn has_control(octets: &[u8]) -> bool
    ensures { result ≡ list_any is_control octets.now }
{
    octets.iter().any(|octet| is_control(*octet))
}

/// Whether the text is one line: it has no control character.
pub(crate) fn is_line(text: &str) -> bool
    ensures { result ≡ lines.is_line text.now }
{
    !has_control(text.as_bytes())
}

fn ends_identifier(octet: u8) -> bool
    ensures { result ≡ identifiers.ends_identifier octet }
{
    octet == b' ' || octet == b'<' || octet == b'>'
}

fn has_end(octets: &[u8]) -> bool
    ensures { result ≡ list_any identifiers.ends_identifier octets.now }
{
    octets.iter().any(|octet| ends_identifier(*octet))
}

/// Whether the text can be an id of a message or of a part.
pub(crate) fn is_identifier(text: &str) -> bool
    ensures { result ≡ identifiers.is_identifier text.now }
{
    is_line(text) && !text.is_empty() && !has_end(text.as_bytes())
}

fn has_comma(octets: &[u8]) -> bool
    ensures { result ≡ list_any mailboxes.is_comma octets.now }
{
    octets.iter().any(|octet| *octet == b',')
}

/// Whether the text can be an address, as far as its octets say.
pub(crate) fn is_email(text: &str) -> bool
    ensures { result ≡ mailboxes.is_email text.now }
{
    is_identifier(text) && !has_comma(text.as_bytes()) && !has_word_mark(text.as_bytes())
}

/// An octet of a token (RFC 2045 section 5.1).
struct TokenOctet;

impl Class<u8> for TokenOctet {
    ghost use Rattle.mail_drafts.specs.MediaTypes.{is_token_octet};

    ghost test = { is_token_octet };

    fn has(&self, item: &u8) -> bool {
        match *item {
            b'('
            | b')'
            | b'<'
            | b'>'
            | b'@'
            | b','
            | b';'
            | b':'
            | b'\\'
            | b'"'
            | b'/'
            | b'['
            | b']'
            | b'?'
            | b'=' => false,
            octet => b'!' <= octet && octet <= b'~',
        }
    }
}

/// All but the slash.
struct NoSlash;

impl Class<u8> for NoSlash {
    ghost use Rattle.mail_drafts.specs.MediaTypes.{is_no_slash};

    ghost test = { is_no_slash };

    fn has(&self, item: &u8) -> bool {
        *item != b'/'
    }
}

/// Whether the octets are a token (RFC 2045 section 5.1).
pub(crate) fn is_token(octets: &[u8]) -> bool
    ensures { result ≡ media_types.is_token octets.now }
{
    !octets.is_empty() && are_all(&TokenOctet, octets)
}

fn is_subtype(octets: &[u8]) -> bool
    ensures { result ≡ media_types.is_subtype octets.now }
{
    match octets {
        [] => false,
        [_, rest @ ..] => is_token(rest),
    }
}

/// Whether this is the type of a media type, which stands before its slash.
pub(crate) fn is_of(kind: &str, media: &str) -> bool
    ensures { result ≡ parts.is_of kind.now media.now }
{
    let (front, _) = cut(&NoSlash, media.as_bytes());
    same_text(front, kind.as_bytes())
}

/// Whether the text is a media type that an attachment may have: two tokens round one slash, and no multipart.
pub(crate) fn is_attachable(media: &str) -> bool
    ensures { result ≡ parts.is_attachable media.now }
{
    let (kind, rest) = cut(&NoSlash, media.as_bytes());
    is_token(kind) && is_subtype(rest) && !is_of("multipart", media)
}
