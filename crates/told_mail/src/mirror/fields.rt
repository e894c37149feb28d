// The flags of a message and the attributes of a folder of a mirror.
ghost use Rattle.std.specs.Prelude.{◌≡◌, ◌≢◌, ◌↔◌, IsTrue};
ghost use Rattle.told_mail.specs.Mail.{with_attributes, with_flags};
ghost use Rattle.told_mail.specs.Told.{Counts, counted_up};

use super::Mirror;
use crate::flags::set_flags_in;
use octets::Names;
use told_folder::keyed::index_of;
use told_folder::puts::one_more;
use told_folder::telling::are_same;

impl Mirror {
    /// Whether the message of the UID has these flags, or isn't held.
    fn has_flags(&self, folder: u64, uid: u32, flags: &Names) -> bool
        ensures { IsTrue result ↔ (with_flags self.now.mail folder uid flags.now ≡ self.now.mail) }
    {
        self.each_is_mail();
        match self.message(folder, uid) {
            Some(message) => are_same(&message.flags, flags),
            None => true,
        }
    }

    /// Gives the message of the UID these flags, where it is held. It takes no memory, and finds the message by halving.
    pub fn set_flags(&mut self, folder: u64, uid: u32, flags: Names)
        ensures mail { self.new.mail ≡ with_flags self.old.mail folder uid flags }
        ensures same { with_flags self.old.mail folder uid flags ≡ self.old.mail → self.new.changes ≡ self.old.changes }
        ensures counted { with_flags self.old.mail folder uid flags ≢ self.old.mail → self.new.changes ≡ counted_up self.old.changes }
        ensures counts { Counts self.old self.new }
    {
        if self.has_flags(folder, uid, &flags) {
            return;
        }
        let Ok(at) = index_of(self.folders.as_slice(), folder) else {
            return;
        };
        let held = &mut self.folders[at];
        set_flags_in(self.alloc, held, uid, flags);
        self.changes = one_more(self.changes);
    }

    /// Gives the folder of the number these attributes, where there is one. It takes no memory.
    pub fn set_attributes(&mut self, folder: u64, attributes: Names)
        ensures mail { self.new.mail ≡ with_attributes self.old.mail folder attributes }
        ensures same { with_attributes self.old.mail folder attributes ≡ self.old.mail → self.new.changes ≡ self.old.changes }
        ensures counted { with_attributes self.old.mail folder attributes ≢ self.old.mail → self.new.changes ≡ counted_up self.old.changes }
        ensures counts { Counts self.old self.new }
    {
        let Ok(at) = index_of(self.folders.as_slice(), folder) else {
            return;
        };
        let held = &mut self.folders[at];
        if are_same(&held.folder.attributes, &attributes) {
            return;
        }
        held.folder.attributes = attributes;
        self.changes = one_more(self.changes);
    }
}
