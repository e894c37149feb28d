// What an attachment asks for.
ghost use Rattle.std.specs.Prelude.{◌≡◌, true, option_map};
ghost use Rattle.mail_drafts.specs.Mailboxes.{is_line_or_none};
ghost use Rattle.mail_drafts.specs.Identifiers.{is_identifier_or_none};
ghost use Rattle.mail_drafts.specs.MediaTypes.{is_leaf_type, is_token_or_none};

/// The upload that is to be attached, and what is said of it.
#[derive(Clone, Copy)]
pub(crate) struct Attached<'a> {
    pub blob: &'a str,
    pub media: &'a str,
    pub charset: Option<&'a str>,
    pub name: Option<&'a str>,
    pub cid: Option<&'a str>,
    pub inline: bool,
    pub ghost media_is: { is_leaf_type media.now ≡ true },
    pub ghost charset_is: { is_token_or_none (option_map (λ t. t.now) charset) ≡ true },
    pub ghost name_is: { is_line_or_none (option_map (λ t. t.now) name) ≡ true },
    pub ghost cid_is: { is_identifier_or_none (option_map (λ t. t.now) cid) ≡ true },
}
