// The laws of parts that are written.
ghost use Rattle.std.specs.Prelude.{ℕ, ℤ, List};
ghost use Rattle.mail_drafts.specs.declared.draft.Draft.{Draft};
ghost use Rattle.message_laws.specs.SafeTexts.{HaveOctets};
ghost use Rattle.message_texts.specs.Messages.{IsMessageText};
ghost use Rattle.mime_tree.specs.declared.part.Part.{Part};
ghost use Rattle.mime_tree.specs.Trees.{HasTooManyParts, IsMessage};
ghost use Rattle.leaf_laws.specs.LeafReading.{IsTreeOfDraft};

/// A reader finds the parts of a draft in its message, in order, with their octets, types, charsets, dispositions, names and
/// ids, where it has no more parts than a tree may have.
pub fn parts_are_read()
    ensures { (d : Draft) (now : ℤ) (word : ℕ) (t : List ℕ) (p : Part) → HaveOctets d.attachments → (HasTooManyParts t → ⊥) → IsMessageText d now word t → IsMessage t p
        → IsTreeOfDraft t d p }
{}
