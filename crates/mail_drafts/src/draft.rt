// Drafts.
ghost use Rattle.std.specs.Prelude.{◌≡◌, true};
ghost use Rattle.mail_drafts.specs.Drafts.{are_filled, are_identifiers, is_text};

use crate::attachment::Attachment;
use crate::mailbox::Mailbox;
use octets::{Listed, Names, Text};
use zoned_moments::ZonedMoment;

/// What the message of an Email that is to be created says (RFC 8621 section 4.6). A list that is there isn't empty.
#[derive(Drop)]
pub struct Draft {
    /// The moment of its Date; the present one where there is none.
    pub date: Option<ZonedMoment>,
    pub from: Option<Listed<Mailbox>>,
    pub sender: Option<Listed<Mailbox>>,
    pub reply_to: Option<Listed<Mailbox>>,
    pub to: Option<Listed<Mailbox>>,
    pub cc: Option<Listed<Mailbox>>,
    pub bcc: Option<Listed<Mailbox>>,
    /// Control characters in it are written as spaces.
    pub subject: Option<Text>,
    /// Its own ids, without angle brackets; one is drawn where there is none.
    pub message_id: Option<Names>,
    pub in_reply_to: Option<Names>,
    pub references: Option<Names>,
    /// The value of its plain text.
    pub text: Option<Text>,
    /// The value of its HTML.
    pub html: Option<Text>,
    pub attachments: Listed<Attachment>,
    pub ghost from_is: { are_filled from ≡ true },
    pub ghost sender_is: { are_filled sender ≡ true },
    pub ghost reply_to_is: { are_filled reply_to ≡ true },
    pub ghost to_is: { are_filled to ≡ true },
    pub ghost cc_is: { are_filled cc ≡ true },
    pub ghost bcc_is: { are_filled bcc ≡ true },
    pub ghost subject_is: { is_text subject ≡ true },
    pub ghost message_id_is: { are_identifiers message_id ≡ true },
    pub ghost in_reply_to_is: { are_identifiers in_reply_to ≡ true },
    pub ghost references_is: { are_identifiers references ≡ true },
    pub ghost text_is: { is_text text ≡ true },
    pub ghost html_is: { is_text html ≡ true },
}
