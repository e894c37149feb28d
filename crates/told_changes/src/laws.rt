//! What the definitions of told changes promise, as clauses of functions that do nothing.
ghost use Rattle.std.specs.Prelude.{◌≡◌, ℕ, false, true, Some, None};
ghost use Rattle.told_folder.specs.declared.exchange.Exchange.{Exchange};
ghost use Rattle.told_folder.specs.declared.message.Folder.{Folder};
ghost use Rattle.told_folder.specs.Folders.{folder_in};
ghost use Rattle.told_mail.specs.Exchanges.{tell};
ghost use Rattle.told_mail.specs.Mail.{Mail, IsMail, IsNextMail, IsWellFormed};
ghost use Rattle.told_mail.specs.Spelled.{AllSpelled, FitsSlice};
ghost use Rattle.told_changes.specs.Landings.{contradiction};
ghost use Rattle.told_changes.specs.Told.{told, is_changing};
ghost use Rattle.told_changes.specs.declared.landing.Landing.{Landing};

/// A command that reads tells what it told before.
pub fn reading_tells_as_before()
    ensures { (m : Mail) (x : Exchange) → is_changing x.command ≡ false → told m x ≡ tell m x }
{}

/// An exchange whose usable code contradicts the mail tells nothing.
pub fn contradicted_tells_nothing()
    ensures { (m : Mail) (x : Exchange) (l : Landing) → contradiction m x ≡ Some l → told m x ≡ m }
{}

/// The mail after an exchange can follow the mail before it.
pub fn changing_goes_on()
    ensures { (m : Mail) (x : Exchange) → IsMail m → IsNextMail m (told m x) }
{}

/// Mail stays well formed, where each response is the value of a spelling.
pub fn changing_keeps_well_formed()
    ensures { (m : Mail) (x : Exchange) → AllSpelled x.responses → FitsSlice x.command → IsWellFormed m → IsWellFormed (told m x) }
{}

/// A command that changes mail leaves of each folder the UID before which all is known: mail that came before the one that it put there is
/// asked for by the next round.
pub fn next_is_not_passed()
    ensures { (m : Mail) (x : Exchange) (n : ℕ) (g : Folder) → IsMail m → is_changing x.command ≡ true → folder_in (told m x).folders n ≡ Some g
        → (f : Folder) × (folder_in m.folders n ≡ Some f) × (g.next ≡ f.next) }
{}
