// Messages that an APPEND put into a folder (RFC 9051 section 6.3.12).
ghost use Rattle.std.specs.Prelude.{◌≡◌, ◌≤◌, IfOk, OnOk};
ghost use Rattle.told_folder.specs.declared.telling.TheConstants.{MAX_MARK};
ghost use Rattle.told_mail.specs.Mail.{with_message};
ghost use Rattle.told_changes.specs.Changes as changes;
ghost use Rattle.told_changes.specs.reading.Steps.{IsFree, Steps};

use crate::Landing;
use crate::headers::header_in;
use kept_names::kept;
use octets::{Bytes, Names};
use std::alloc::{AllocError, Global};
use told_mail::{Message, Mirror};

/// The message, under this mark.
fn appended_message(
    alloc: Global,
    mark: u64,
    uid: u32,
    flags: &Names,
    date: i64,
    message: &Bytes,
) -> Result<Message, AllocError>
    ensures { IfOk result (λ x. x ≡ changes.appended_message mark uid flags.now date message.now) }
{
    let flags = kept(alloc, flags.as_slice(), &[])?;
    let header = header_in(alloc, message.as_slice())?;
    let size = message.as_slice().len() as u64;
    Ok(Message {
        uid,
        mark,
        flags,
        date,
        size,
        header,
    })
}

/// Puts the message where it went, under the next mark.
pub fn append_message(
    alloc: Global,
    mirror: &mut Mirror,
    landing: Landing,
    flags: &Names,
    date: i64,
    message: &Bytes,
) -> Result<(), AllocError>
    requires free { IsFree mirror.old.mail landing }
    requires mark { mirror.old.mail.next_mark ≤ MAX_MARK }
    ensures ok { OnOk result (mirror.new.mail
        ≡ with_message mirror.old.mail landing.folder (changes.appended_message mirror.old.mail.next_mark landing.uid flags.now date message.now)) }
    ensures steps { Steps mirror.old mirror.new }
{
    mirror.each_is_mail();
    let mark = mirror.next_mark();
    let appended = appended_message(alloc, mark, landing.uid, flags, date, message)?;
    mirror.put_message(landing.folder, appended)?;
    Ok(())
}
