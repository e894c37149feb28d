// A round over the folders of a mirror.
ghost use Rattle.std.specs.Prelude.{◌≡◌, IfOk, true, false};
ghost use Rattle.gate_world.specs.Causes.{LinkAlone, Rose};
ghost use Rattle.gate_world.specs.Tape.{Adds};
ghost use Rattle.imap_client.specs.LinkLife.{LinkLife, Stands};
ghost use Rattle.store_causes.specs.Causes.{loses_link};
ghost use Rattle.store_causes.specs.reading.Rounding.{RoundsTo};

use crate::asking::ask_all;
use crate::beginning::beginning_by;
use crate::cause::StoreCause;
use crate::notes::Notes;
use crate::watched::Watched;
use gate_world::Link;
use imap_client::{Client, Round, RoundStage, refusals_stop};
use imap_exchange::Received;
use octets::Bytes;
use std::alloc::{AllocError, Global};
use told_mail::Mirror;

/// What a round found.
#[derive(Drop)]
pub struct RoundFound {
    /// What is known of the life after it.
    pub notes: Notes,
    /// The mail that was told, after what was before.
    pub mirror: Mirror,
    /// None where all of it is done.
    pub cause: Option<StoreCause>,
    /// What is told of octets that can't be read.
    pub beginning: Option<Bytes>,
}

/// Asks what a round asks, of a store that tells special uses or not and to which the password was given, after the mail that this mirror
/// has.
pub fn ask_round<L: Link>(
    alloc: Global,
    client: &mut Client,
    link: &mut L,
    password: &[u8],
    special_use: bool,
    mirror: Mirror,
    notes: Notes,
) -> Result<RoundFound, AllocError>
    requires alive { client.old.alive ≡ true }
    requires lost { loses_link notes.cause ≡ false }
    ensures tape { Adds (L.tape link.old) (L.tape link.new) (λ es. (life : LinkLife) → Stands client.old life → (left : LinkLife)
        × RoundsTo password.now special_use mirror.mail notes life left client.new result es) }
    ensures lost { IfOk result (λ found. loses_link found.notes.cause ≡ false) }
    ensures alone { LinkAlone (L.faults link.old) (L.faults link.new) }
    ensures cause { IfOk result (λ found. loses_link found.cause ≡ true → Rose (L.faults link.old).link (L.faults link.new).link) }
    ensures hidden { L.hidden link.new ≡ L.hidden link.old }
{
    refusals_stop();
    let mut plan = Watched {
        inner: Round {
            stage: RoundStage::Listing { special_use },
            mirror,
        },
        notes,
    };
    let mut unread = Received::new(alloc);
    let cause = ask_all(alloc, client, link, &mut plan, &mut unread)?;
    let beginning = beginning_by(alloc, &cause, password, unread.as_slice())?;
    let Watched { inner, notes } = plan;
    Ok(RoundFound {
        notes,
        mirror: inner.mirror,
        cause,
        beginning,
    })
}
