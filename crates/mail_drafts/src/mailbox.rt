// Mailboxes that fields of a message name.
ghost use Rattle.std.specs.Prelude.{◌≡◌, true};
ghost use Rattle.mail_drafts.specs.Mailboxes.{is_email, is_line_or_none, ReadsAlone};

use octets::Text;

/// A mailbox that a field of a message names (RFC 5322 section 3.4).
#[derive(Debug, Drop)]
pub struct Mailbox {
    /// The name that is shown.
    pub name: Option<Text>,
    /// The address, as `user@example.org`.
    pub email: Text,
    /// Without control characters.
    pub ghost name_is: { is_line_or_none name ≡ true },
    /// One word at least, without what ends an address or begins an encoded word.
    pub ghost email_is: { is_email email ≡ true },
    /// Alone it reads as itself.
    pub ghost alone_is: { ∥ ReadsAlone email ∥₁ },
}
