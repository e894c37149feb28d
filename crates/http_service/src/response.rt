// Responses (RFC 9112 section 4).
ghost use Rattle.std.specs.Prelude.{◌≡◌, ◌++◌, OnErr};
ghost use Rattle.gate_world.specs.Causes.{Rose, FrontAlone};
ghost use Rattle.gate_world.specs.Sending.{Sends};
ghost use Rattle.gate_world.specs.Tape.{Adds};

use gate_world::{Failed, Front, send_all};

/// Sends the head of a response, its empty line with it, and then the body. It takes no memory.
pub fn write_response<F: Front>(front: &mut F, head: &[u8], body: &[u8]) -> Result<(), Failed>
    ensures tape { Adds (F.tape front.old) (F.tape front.new) (Sends (head.now ++ body.now) result) }
    ensures alone { FrontAlone (F.faults front.old) (F.faults front.new) }
    ensures cause { OnErr result (Rose (F.faults front.old).front (F.faults front.new).front) }
    ensures hidden { F.hidden front.new ≡ F.hidden front.old }
{
    match send_all(front, head) {
        Ok(()) => send_all(front, body),
        Err(failed) => Err(failed),
    }
}
