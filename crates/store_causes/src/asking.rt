// A plan is followed, and the cause where not all of it is done.
ghost use Rattle.std.specs.Prelude.{◌≡◌, IfOk, [], true, false};
ghost use Rattle.gate_world.specs.Causes.{LinkAlone, Rose};
ghost use Rattle.gate_world.specs.Tape.{Adds};
ghost use Rattle.imap_client.specs.LinkLife.{LinkLife, Stands};
ghost use Rattle.store_causes.specs.Causes.{loses_link};
ghost use Rattle.store_causes.specs.reading.Following.{AsksTo, is_memory as memory_test};
ghost use Rattle.store_causes.specs.reading.Noting.{cause_at};

use crate::cause::StoreCause;
use crate::watched::Watched;
use gate_world::Link;
use imap_client::{Client, LinkEnd, Plan, follow_keeping};
use imap_exchange::Received;
use std::alloc::{AllocError, Global};

fn is_memory(end: LinkEnd) -> bool
    ensures { result ≡ memory_test end }
{
    match end {
        LinkEnd::Memory => true,
        _ => false,
    }
}

// The cause where the life ended so, which is taken out of the notes; an error where memory ran out.
fn take_stop<P: Plan>(
    alloc: Global,
    plan: &mut Watched<P>,
    end: LinkEnd,
) -> Result<Option<StoreCause>, AllocError>
    ensures memory { IfOk result (λ _. memory_test end ≡ false) }
    ensures cause { IfOk result (λ cause. cause ≡ cause_at plan.old.notes (P.plan plan.old.inner []) end) }
    ensures inner { plan.new.inner ≡ plan.old.inner }
    ensures let_in { plan.new.notes.let_in ≡ plan.old.notes.let_in }
    ensures lost { loses_link plan.old.notes.cause ≡ false → loses_link plan.new.notes.cause ≡ false }
{
    if is_memory(end) {
        return Err(AllocError);
    }
    let due = plan.inner.due(alloc)?;
    let cause = plan.notes.take_cause(alloc, &due, end)?;
    Ok(cause)
}

/// Asks what is due, until all is done or there is a cause. Where there is one the life has ended, and where no response begins at
/// an offset of what the store gave, `unread` has the octets from there on.
pub fn ask_all<L: Link, P: Plan>(
    alloc: Global,
    client: &mut Client,
    link: &mut L,
    plan: &mut Watched<P>,
    unread: &mut Received,
) -> Result<Option<StoreCause>, AllocError>
    requires alive { client.old.alive ≡ true }
    requires kept { P.keeps plan.old.inner plan.old.inner }
    requires lost { loses_link plan.old.notes.cause ≡ false }
    ensures tape { Adds (L.tape link.old) (L.tape link.new) (λ es. (life : LinkLife) → Stands client.old life → (left : LinkLife)
        × AsksTo P.plan P.hears plan.old.inner plan.new.inner plan.old.notes plan.new.notes life left client.new unread.new.octets result es) }
    ensures lost { loses_link plan.new.notes.cause ≡ false }
    ensures alone { LinkAlone (L.faults link.old) (L.faults link.new) }
    ensures cause { IfOk result (λ cause. loses_link cause ≡ true → Rose (L.faults link.old).link (L.faults link.new).link) }
    ensures hidden { L.hidden link.new ≡ L.hidden link.old }
{
    let mut torn = false;
    match follow_keeping(client, link, plan, &mut torn, unread) {
        Ok(()) => Ok(None),
        Err(end) => {
            let cause = take_stop(alloc, plan, end)?;
            Ok(cause)
        }
    }
}
