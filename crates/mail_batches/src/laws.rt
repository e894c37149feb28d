// What batches say and what they rule out, as clauses of functions that do nothing.
ghost use Rattle.std.specs.Prelude.{◌≡◌, ℕ, List};
ghost use Rattle.std.specs.List.{AllByRecursion};
ghost use Rattle.told_mail.specs.Mail.{Mail, IsNextMail};
ghost use Rattle.mail_batches.specs.Batches.{IsBatch, batch_text};
ghost use Rattle.mail_batches.specs.Between.{AreBetween};
ghost use Rattle.mail_batches.specs.Items.{Fits};
ghost use Rattle.mail_batches.specs.declared.item.Item.{Item};

/// A batch spells one list of items.
pub fn one_reading()
    ensures { (v w : ℕ) (a b : List Item) → AllByRecursion Fits a → AllByRecursion Fits b → batch_text v a ≡ batch_text w b → a ≡ b }
{}

/// A batch leads from mail to one mail alone.
pub fn one_batch()
    ensures { (m a b : Mail) (batch : List ℕ) → IsBatch m batch a → IsBatch m batch b → a ≡ b }
{}

/// A batch leads to mail that can follow.
pub fn a_batch_goes_on()
    ensures { (m after : Mail) (batch : List ℕ) → IsBatch m batch after → IsNextMail m after }
{}

/// What differs between two mails is one list of items.
pub fn one_between()
    ensures { (m n : Mail) (a b : List Item) → AreBetween m n a → AreBetween m n b → a ≡ b }
{}
