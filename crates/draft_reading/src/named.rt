// What an address says (RFC 8621 section 4.1.2.3).
ghost use Rattle.std.specs.Prelude.{◌≡◌, true, option_map};
ghost use Rattle.mail_drafts.specs.Mailboxes.{is_email, is_line_or_none};

/// The name and the email of an address.
#[derive(Clone, Copy)]
pub(crate) struct Named<'a> {
    pub name: Option<&'a str>,
    pub email: &'a str,
    pub ghost name_is: { is_line_or_none (option_map (λ t. t.now) name) ≡ true },
    pub ghost email_is: { is_email email.now ≡ true },
}
