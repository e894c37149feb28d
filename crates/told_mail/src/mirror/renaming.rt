// Folders of a mirror that are renamed.
ghost use Rattle.std.specs.Prelude.{◌≡◌, true, false, OnOk, OnErr};
ghost use Rattle.told_mail.specs.Lists as lists;
ghost use Rattle.told_mail.specs.Renames.{with_renamed};
ghost use Rattle.told_mail.specs.Told.{counted_up};

use super::Mirror;
use crate::new_names::is_inbox;
use crate::renames::{given_names, renamed, take_names};
use std::alloc::AllocError;
use std::mem;
use told_folder::puts::one_more;

impl Mirror {
    /// Renames the folder of a name and those below it, but for INBOX (RFC 9051 section 6.3.6). A folder that isn't renamed
    /// ends where another gets its name. A refusal changes nothing.
    pub fn rename(&mut self, from: &[u8], to: &[u8]) -> Result<(), AllocError>
        ensures ok { OnOk result (self.new.mail ≡ with_renamed self.old.mail from.now to.now) }
        ensures inbox { lists.is_inbox from.now ≡ true → self.new ≡ self.old }
        ensures counted { lists.is_inbox from.now ≡ false → OnOk result (self.new.changes ≡ counted_up self.old.changes) }
        ensures err { OnErr result (self.new ≡ self.old) }
    {
        if is_inbox(from) {
            return Ok(());
        }
        let given = given_names(self.alloc, self.folders.as_slice(), from, to)?;
        let renamed = renamed(self.alloc, self.folders.as_slice(), from, to, &given)?;
        let left = Vec::with_capacity(self.alloc, self.folders.len())?;
        let folders = mem::replace(&mut self.folders, Vec::new(self.alloc));
        self.folders = take_names(folders, renamed.names, left, &mut self.marks);
        self.numbers = renamed.numbers;
        self.changes = one_more(self.changes);
        Ok(())
    }
}
