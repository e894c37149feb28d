// What a part of an Email says of itself (RFC 8621 section 4.1.4).
ghost use Rattle.std.specs.Prelude.{◌≡◌, true, option_map};
ghost use Rattle.mail_drafts.specs.Mailboxes.{is_line_or_none};
ghost use Rattle.mail_drafts.specs.Identifiers.{is_identifier_or_none};

/// What a part says; what is of no use to a message is passed over.
#[derive(Clone, Copy)]
pub(crate) struct Part<'a> {
    pub part: Option<&'a str>,
    pub blob: Option<&'a str>,
    pub media: Option<&'a str>,
    pub charset: Option<&'a str>,
    pub name: Option<&'a str>,
    pub cid: Option<&'a str>,
    pub disposition: Option<&'a str>,
    pub ghost name_is: { is_line_or_none (option_map (λ t. t.now) name) ≡ true },
    pub ghost cid_is: { is_identifier_or_none (option_map (λ t. t.now) cid) ≡ true },
}
