// The laws of messages that are written.
ghost use Rattle.std.specs.Prelude.{◌≡◌, ◌≢◌, ◌≤ℤ◌, ◌++◌, ℕ, ℤ, pos, negsuc, true, false, List, [], Some};
ghost use Rattle.std.specs.List.{list_all};
ghost use Rattle.text_words.specs.Cuts.{Each};
ghost use Rattle.header_words.specs.Transfer.{IsBody};
ghost use Rattle.header_words.specs.declared.transfer.Encoding.TheVariants as encoding;
ghost use Rattle.message_lines.specs.Bodies.{base64_lines};
ghost use Rattle.mail_header.specs.Bracketed.{IsNamesForm};
ghost use Rattle.mail_drafts.specs.Identifiers.{is_identifier};
ghost use Rattle.message_lines.specs.declared.folding.Line.{Line};
ghost use Rattle.message_lines.specs.Folding.{FieldPiece, crlf, laid};
ghost use Rattle.message_lines.specs.Ids.{AreIdTexts};
ghost use Rattle.message_lines.specs.Subjects.{IsSubject, shown_subject};
ghost use Rattle.mail_header.specs.RawForms.{IsTextForm};
ghost use Rattle.mail_drafts.specs.declared.draft.Draft.{Draft};
ghost use Rattle.header_dates.specs.declared.date.Moment.{Moment};
ghost use Rattle.header_dates.specs.Dates.{IsDateForm};
ghost use Rattle.message_texts.specs.DateTexts.{IsDateText};
ghost use Rattle.message_texts.specs.Messages.{IsMessageText};
ghost use Rattle.message_laws.specs.Headers.{HasItsHeader};
ghost use Rattle.message_laws.specs.ReadBack.{ReadsAsDraft};
ghost use Rattle.message_laws.specs.SafeTexts.{HaveOctets, IsLines, is_octet};

/// A draft, a moment and a word that is drawn have one message.
pub fn one_message_text()
    ensures { (d : Draft) (now : ℤ) (word : ℕ) (s t : List ℕ) → IsMessageText d now word s → IsMessageText d now word t → s ≡ t }
{}

/// No message has an octet that breaks a line, whatever its draft says: CR and LF stand in pairs alone, and no other control
/// character is there.
pub fn message_is_lines()
    ensures { (d : Draft) (now : ℤ) (word : ℕ) (t : List ℕ) → HaveOctets d.attachments → IsMessageText d now word t → IsLines t }
{}

/// A reader finds the fields of a message as they were written, none besides, and its body behind them.
pub fn header_is_read()
    ensures { (d : Draft) (now : ℤ) (word : ℕ) (t : List ℕ) → IsMessageText d now word t → HasItsHeader d now word t }
{}

/// A reader finds ids as they were written, wherever their line is folded.
pub fn ids_are_read()
    ensures { (line : Line) (ids : List (List ℕ)) (ps : List FieldPiece) → ids ≢ [] → list_all is_identifier ids ≡ true → AreIdTexts ids ps → IsNamesForm (Some ids) (laid line ps) }
{}

/// A reader finds the moment of a date in its zone, which is less than a day off.
pub fn date_is_read()
    ensures { (line : Line) (m : Moment) (ps : List FieldPiece) → negsuc 1438 ≤ℤ m.offset_minutes → m.offset_minutes ≤ℤ pos 1439 → IsDateText m ps → IsDateForm (laid line ps) (Some m) }
{}

/// A reader finds a subject as it was given, but for a space in place of each control character.
pub fn subject_is_read()
    ensures { (line : Line) (s : List ℕ) (ps : List FieldPiece) → IsSubject line s ps → IsTextForm (shown_subject s) (laid line ps) }
{}

/// A reader finds the octets of a leaf's body, also where the end of its last line belongs to the delimiter behind it.
pub fn body_is_read()
    ensures alone { (octets : List ℕ) → Each is_octet octets → IsBody encoding.Base64 octets false (base64_lines octets) }
    ensures in_multipart { (octets body : List ℕ) → Each is_octet octets → base64_lines octets ≡ body ++ crlf → IsBody encoding.Base64 octets false body }
{}

/// A reader finds the date, the subject and the ids of a draft in its message, by the names of their fields.
pub fn draft_is_read()
    ensures { (d : Draft) (now : ℤ) (word : ℕ) (t : List ℕ) → IsMessageText d now word t → ReadsAsDraft d now word t }
{}
