// What is attached to a message.
ghost use Rattle.std.specs.Prelude.{◌≡◌, true};
ghost use Rattle.mail_drafts.specs.Mailboxes.{is_line_or_none};
ghost use Rattle.mail_drafts.specs.Identifiers.{is_identifier_or_none};
ghost use Rattle.mail_drafts.specs.MediaTypes.{is_leaf_type, is_token_or_none};

use octets::{Bytes, Text};

/// A file that goes with the message.
#[derive(Debug, Drop)]
pub struct Attachment {
    pub bytes: Bytes,
    /// Its media type, `type/subtype`.
    pub media: Text,
    /// The charset of its octets.
    pub charset: Option<Text>,
    /// The name of the file.
    pub name: Option<Text>,
    /// Its Content-ID, without angle brackets.
    pub cid: Option<Text>,
    /// Whether it is to be shown with the text (RFC 2183 section 2.1).
    pub inline: bool,
    /// The type of a leaf.
    pub ghost media_is: { is_leaf_type media ≡ true },
    /// A token.
    pub ghost charset_is: { is_token_or_none charset ≡ true },
    /// Without control characters.
    pub ghost name_is: { is_line_or_none name ≡ true },
    /// It can stand in angle brackets.
    pub ghost cid_is: { is_identifier_or_none cid ≡ true },
}
