// An item's plan over a mirror.
ghost use Rattle.std.specs.Prelude.{◌≡◌, ◌∷◌, [], true, false, IfOk, OnOk};
ghost use Rattle.imap_types.specs.declared.command.Command.TheVariants as commands;
ghost use Rattle.imap_client.specs.declared.plan.Due.TheVariants as dues;
ghost use Rattle.imap_client.specs.reading.Keeping.{KeepsMirror};
ghost use Rattle.told_mail.specs.Mail.{IsNextMail};
ghost use Rattle.told_mail.specs.Told.{Counts};
ghost use Rattle.told_changes.specs.Told as changes;
ghost use Rattle.told_changes.specs.Told.{told};
ghost use Rattle.told_mail.specs.Exchanges.{TellsKnown};
ghost use Rattle.set_items.specs.Items as items;
ghost use Rattle.set_items.specs.reading.Running.{HearsItem, state_of};

use crate::obeying::{Heard, stage_after};
use crate::selecting::select_due;
use crate::sharing::share_command;
use crate::stage::ItemStage;
use imap_client::{Due, Plan};
use imap_types::{Command, Status};
use octets::{Bytes, Names};
use set_jobs::Step;
use std::alloc::{AllocError, Global};
use std::mem;
use told_changes::{is_changing, tell, told_landing};
use told_mail::{Exchange, Mirror, ToldError};

/// An item so far, and the mail that is told.
#[derive(Drop)]
pub struct ItemPlan {
    pub stage: ItemStage,
    pub mirror: Mirror,
    /// Whether a changing command of the call was answered OK.
    pub changed: bool,
}

/// STORE of `\Deleted` to a message of the selected folder.
fn delete_due(alloc: Global, uid: u32) -> Result<Due, AllocError>
    ensures { IfOk result (λ due. due ≡ dues.Send (commands.Store uid true (items.deleted_flag ∷ []))) }
{
    let mut flags = Names::new(alloc);
    flags.push(Bytes::copy_of(alloc, b"\\deleted")?)?;
    Ok(Due::Send(Command::Store {
        uid,
        add: true,
        flags,
    }))
}

fn step_due(alloc: Global, step: &Step, mirror: &Mirror) -> Result<Due, AllocError>
    ensures { IfOk result (λ due. due ≡ items.step_due mirror.now.mail step.now) }
{
    match step {
        Step::Select { folder, .. } => select_due(mirror.folder(*folder)),
        Step::SelectMade { name } => select_due(mirror.named(name.as_slice())),
        Step::Change(command) => Ok(Due::Send(share_command(alloc, command)?)),
        Step::Delete { uid } => delete_due(alloc, *uid),
        Step::Unselect => Ok(Due::Send(Command::Unselect)),
        Step::Expunge { uid } => Ok(Due::Send(Command::Expunge { uid: *uid })),
        Step::List { special_use, .. } => Ok(Due::Send(Command::List {
            special_use: *special_use,
        })),
    }
}

/// Whether the exchange of a changing command was answered OK.
fn is_change(exchange: &Exchange) -> bool
    ensures { result ≡ items.is_change exchange.now }
{
    match exchange.status {
        Status::Ok => is_changing(&exchange.command),
        _ => false,
    }
}

/// Tells the mirror what the exchange says. One whose code contradicts the mail tells nothing.
fn tell_exchange(alloc: Global, mirror: &mut Mirror, exchange: &Exchange) -> Result<(), AllocError>
    ensures ok { OnOk result (mirror.new.mail ≡ told mirror.old.mail exchange.now) }
    ensures known { changes.is_changing exchange.now.command ≡ false → TellsKnown mirror.old.mail exchange.now → OnOk result (mirror.new.changes ≡ mirror.old.changes) }
    ensures counts { Counts mirror.old mirror.new }
    ensures next { IsNextMail mirror.old.mail mirror.new.mail }
{
    match tell(alloc, mirror, exchange) {
        Ok(()) => Ok(()),
        Err(ToldError::Contradicts { .. }) => Ok(()),
        Err(ToldError::Memory) => Err(AllocError),
    }
}

impl Plan for ItemPlan {
    ghost plan = { λ p. items.item_plan (state_of p) };

    ghost hears = { HearsItem };

    ghost keeps = { λ p q. KeepsMirror p.mirror q.mirror };

    fn due(&self, alloc: Global) -> Result<Due, AllocError> {
        match &self.stage {
            ItemStage::Doing { step, .. } => step_due(alloc, step, &self.mirror),
            ItemStage::Failing(why) => Ok(Due::Fails(*why)),
            ItemStage::Settled(_) | ItemStage::Partly => Ok(Due::Done),
        }
    }

    fn hear(&mut self, alloc: Global, x: Exchange) -> Result<(), AllocError> {
        let landing = told_landing(&self.mirror, &x);
        let mark = self.mirror.next_mark();
        tell_exchange(alloc, &mut self.mirror, &x)?;
        let stage = mem::replace(&mut self.stage, ItemStage::Partly);
        let heard = Heard {
            exchange: &x,
            landing,
            mark,
            mirror: &self.mirror,
        };
        self.stage = stage_after(stage, &heard);
        self.changed = self.changed || is_change(&x);
        Ok(())
    }
}
