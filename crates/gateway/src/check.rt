// A store is checked, and a report on it is made.
ghost use Rattle.std.specs.Prelude.{◌≡◌, ◌⊎◌, IfOk};
ghost use Rattle.gate_world.specs.Causes.{LinkAlone};
ghost use Rattle.gate_world.specs.Tape.{Adds};
ghost use Rattle.gateway.specs.Check as spec;

use check_report::{finding_of, report};
use gate_world::{Link, Secrets};
use std::alloc::{AllocError, Global};
use store_causes::{StoreCause, check_store};

/// The store can't be used.
pub const STATUS_STORE: u8 = 8;

/// The report on a store.
#[derive(Drop)]
pub struct Report {
    /// Its lines, each with its end.
    pub text: Vec<u8>,
    /// The status that the program ends with, where the text was told.
    pub status: u8,
}

fn found_status(cause: &Option<StoreCause>) -> u8
    ensures status { result ≡ spec.found_status cause.now }
    ensures statuses { (result ≡ 0) ⊎ (result ≡ 8) }
{
    match cause {
        None => 0,
        Some(_) => STATUS_STORE,
    }
}

/// Checks the store, and makes the report on it. Out of memory tells nothing.
pub fn report_on<W: Link + Secrets>(
    alloc: Global,
    world: &mut W,
    store: &[u8],
    user: &[u8],
) -> Result<Report, AllocError>
    ensures tape { Adds (W.tape world.old) (W.tape world.new) (spec.ReportsOn store.now user.now (W.hidden world.old).password (W.faults world.old) (W.faults world.new) result) }
    ensures statuses { IfOk result (λ r. (r.status ≡ 0) ⊎ (r.status ≡ 8)) }
    ensures alone { LinkAlone (W.faults world.old) (W.faults world.new) }
    ensures hidden { W.hidden world.new ≡ W.hidden world.old }
{
    let checked = check_store(alloc, world, user)?;
    let status = found_status(&checked.cause);
    let finding = finding_of(alloc, checked)?;
    let text = report(alloc, store, user, &finding)?;
    Ok(Report { text, status })
}
