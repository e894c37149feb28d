//! The laws of rows, as clauses of functions that do nothing.
ghost use Rattle.std.specs.Prelude.{◌≡◌, ℕ, List, Some, is_some};
ghost use Rattle.std.specs.List.Sorted.{IsStrictlySortedBy};
ghost use Rattle.std.specs.Map.{keys_of};
ghost use Rattle.std.specs.Ordering.{nat_cmp};
ghost use Rattle.told_folder.specs.declared.message.NumberedFolder.{NumberedFolder};
ghost use Rattle.thread_rule.specs.Threads.{Members, IsThreadOf};
ghost use Rattle.mail_maps.specs.declared.envelope.Envelope.{Envelope};
ghost use Rattle.mail_maps.specs.Envelope.{IsEnvelopeOf};
ghost use Rattle.mail_maps.specs.declared.row.EmailRow.{EmailRow};
ghost use Rattle.mail_maps.specs.Visible.{Placed, shown};
ghost use Rattle.change_list.specs.Advance.{row_at};
ghost use Rattle.mail_rows.specs.NumberedRows.{NumberedRows, knows};
ghost use Rattle.mail_rows.specs.Remaining.{updated};
ghost use Rattle.mail_rows.specs.Joining.{thread_in};
ghost use Rattle.mail_rows.specs.Taking.{TakesMail};

/// A header has one envelope.
pub fn one_envelope()
    ensures { (header : List ℕ) (e f : Envelope) → IsEnvelopeOf header e → IsEnvelopeOf header f → e ≡ f }
{}

/// The rows of some mail come of those before in one way.
pub fn one_take()
    ensures { (n : NumberedRows) (hs : List NumberedFolder) (a b : NumberedRows) → TakesMail n hs a → TakesMail n hs b → a ≡ b }
{}

/// The Thread that is sought among all members is that of the rule.
pub fn joins_by_the_rule()
    ensures { (members : Members) (base : List ℕ) (number : ℕ) (ids : List (List ℕ))
        → IsStrictlySortedBy nat_cmp (keys_of members) → IsThreadOf members base number ids (thread_in members base number ids) }
{}

/// An Email has a mark exactly where the mail shows it.
pub fn emails_are_shown()
    ensures { (n : NumberedRows) (hs : List NumberedFolder) (after : NumberedRows) (mark : ℕ) → TakesMail n hs after → knows after.rows mark ≡ is_some (shown hs mark) }
{}

/// An Email whose mark is shown stays under its number, as its message is.
pub fn an_email_stays()
    ensures { (n : NumberedRows) (hs : List NumberedFolder) (after : NumberedRows) (number : ℕ) (row : EmailRow) (p : Placed)
        → IsStrictlySortedBy nat_cmp (keys_of n.rows) → TakesMail n hs after → row_at n.rows number ≡ Some row → shown hs row.mark ≡ Some p
        → row_at after.rows number ≡ Some (updated row p) }
{}
