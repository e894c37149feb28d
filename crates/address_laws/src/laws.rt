// The laws of addresses that are written.
ghost use Rattle.std.specs.Prelude.{◌≢◌, ℕ, ℤ, List, []};
ghost use Rattle.mail_drafts.specs.declared.draft.Draft.{Draft};
ghost use Rattle.mail_drafts.specs.declared.mailbox.Mailbox.{Mailbox};
ghost use Rattle.message_lines.specs.declared.folding.Line.{Line};
ghost use Rattle.message_lines.specs.Folding.{FieldPiece, laid};
ghost use Rattle.message_texts.specs.AddressTexts.{AreAddressTexts};
ghost use Rattle.message_texts.specs.Messages.{IsMessageText};
ghost use Rattle.address_laws.specs.MailboxReading.{AreMailboxesOf, ReadsMailboxes};

/// A reader finds mailboxes as they were given, wherever their line is folded: with their names in all characters, and no others.
pub fn addresses_are_read()
    ensures { (line : Line) (list : List Mailbox) (ps : List FieldPiece) → list ≢ [] → AreAddressTexts line list ps → AreMailboxesOf list (laid line ps) }
{}

/// A reader finds the originators and the recipients of a draft in its message, by the names of their fields.
pub fn mailboxes_are_read()
    ensures { (d : Draft) (now : ℤ) (word : ℕ) (t : List ℕ) → IsMessageText d now word t → ReadsMailboxes d t }
{}
