// What the definitions promise.
ghost use Rattle.std.specs.Prelude.{List, ℕ};
ghost use Rattle.gate_world.specs.Causes.{Faults, Hidden};
ghost use Rattle.gate_world.specs.declared.event.Event.{Event};
ghost use Rattle.gate_serving.specs.Run.{Stood};
ghost use Rattle.gateway.specs.Appending.{AppendsOnce};
ghost use Rattle.gateway.specs.Checking.{ChecksByReading};
ghost use Rattle.gateway.specs.Complete.{AnswersAll, CompletesServing};
ghost use Rattle.gateway.specs.Program.{IsWholeRun};

use append_laws::{clients_append_once, runs_append_once};
use gate_serving::{
    no_fault_no_blame, obeyed_clients_are_told, obeyed_runs_are_told, quiet_runs_are_told,
};
use store_causes::checks_take_reads;

/// Each client of a run of the program of whom nothing fails and for whom the store obeyed is told, whatever comes of the others.
pub fn obeyed_programs_tell()
    ensures { (words : List (List ℕ)) (secrets : Hidden) (status : ℕ) (events : List Event) → CompletesServing words secrets status events }
{
    obeyed_clients_are_told();
    obeyed_runs_are_told();
}

/// Each client of a run of the program for whom the store obeyed is told, where no count of faults rose.
pub fn quiet_programs_tell()
    ensures { (words : List (List ℕ)) (secrets : Hidden) (was now : Faults) (status : ℕ) (events : List Event)
        → IsWholeRun words secrets was now status events → Stood was now → AnswersAll words secrets status events }
{
    no_fault_no_blame();
    obeyed_clients_are_told();
    quiet_runs_are_told();
}

/// For each creation or import of an Email that is asked of the program the store takes octets of one APPEND at most, and of none for anything else that
/// a call is to change; a new Email was put there by that APPEND.
pub fn programs_append_once()
    ensures { (words : List (List ℕ)) (secrets : Hidden) (status : ℕ) (events : List Event) → AppendsOnce words secrets status events }
{
    clients_append_once();
    runs_append_once();
}

/// A store that is checked takes nothing but a front of the texts of commands that only read.
pub fn programs_check_by_reading()
    ensures { (words : List (List ℕ)) (secrets : Hidden) (status : ℕ) (events : List Event) → ChecksByReading words secrets status events }
{
    checks_take_reads();
}
