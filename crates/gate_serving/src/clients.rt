// Clients are served, one after another.
ghost use Rattle.std.specs.Prelude.{◌≡◌, ◌⊎◌};
ghost use Rattle.gate_world.specs.Causes.{Later, Rose};
ghost use Rattle.gate_world.specs.Tape.{Adds};
ghost use Rattle.gate_serving.specs.Complete.{CompletesRun};
ghost use Rattle.gate_serving.specs.Histories.{KeepsHistories};
ghost use Rattle.gate_serving.specs.Run.{IsServingRun};
ghost use Rattle.gate_serving.specs.Gates.{Comes, RestStays, account_by};

use crate::gate::Gate;
use crate::laws::{histories_go_on, obeyed_runs_are_told};
use crate::outcomes::ClientOutcome;
use gate_world::World;
use std::alloc::Global;

/// Serves this many clients, or as many as come: 0, or 6 where accepting failed.
pub fn serve<W: World>(alloc: Global, gate: &mut Gate, world: &mut W, most: u64) -> u8
    ensures run { Adds (W.tape world.old) (W.tape world.new)
        (Comes gate.old gate.new (λ s t. IsServingRun gate.old.door (account_by gate.old (W.hidden world.old)) s t most (W.faults world.old) (W.faults world.new) result)) }
    // A law over that run: of whom nothing is blamed and for whom the store obeyed takes the whole response that is due, whatever
    // comes of the others.
    ensures complete { Adds (W.tape world.old) (W.tape world.new) (CompletesRun gate.old.door (account_by gate.old (W.hidden world.old))) }
    // Another: no client is answered over other mail at a place that an earlier one was told of, unless another epoch was drawn;
    // `answers_are_of_the_served_history` says that a client is answered over the history of the machine after it.
    ensures histories { Adds (W.tape world.old) (W.tape world.new) (KeepsHistories gate.old.door (account_by gate.old (W.hidden world.old))) }
    ensures rest { RestStays gate.old gate.new }
    ensures statuses { (result ≡ 0) ⊎ (result ≡ 6) }
    ensures later { Later (W.faults world.old) (W.faults world.new) }
    ensures front { result ≡ 6 → Rose (W.faults world.old).front (W.faults world.new).front }
    ensures hidden { W.hidden world.new ≡ W.hidden world.old }
{
    obeyed_runs_are_told();
    histories_go_on();
    let mut count: u64 = 0;
    'serving: while count < most {
        match gate.answer_one(alloc, world) {
            ClientOutcome::AcceptFault => return 6,
            ClientOutcome::NoMore => return 0,
            ClientOutcome::Whole => {}
            ClientOutcome::Part => {}
        }
        count += 1;
    }
    0
}
