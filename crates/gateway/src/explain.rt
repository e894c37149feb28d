// Pages of help.
ghost use Rattle.std.specs.Prelude.{◌≡◌, OnErr};
ghost use Rattle.gate_world.specs.Causes.{FrontAlone, Rose};
ghost use Rattle.gate_world.specs.Tape.{Adds};
ghost use Rattle.gateway.specs.Explain.{ExplainsTo, TellsClient};

use gate_world::{Failed, Front, send_all};

// A client that came.
fn tell_client<F: Front>(front: &mut F, text: &[u8]) -> Result<(), Failed>
    ensures tape { Adds (F.tape front.old) (F.tape front.new) (TellsClient text.now result) }
    ensures alone { FrontAlone (F.faults front.old) (F.faults front.new) }
    ensures cause { OnErr result (Rose (F.faults front.old).front (F.faults front.new).front) }
    ensures hidden { F.hidden front.new ≡ F.hidden front.old }
{
    let told = send_all(front, text);
    front.finish();
    told
}

/// Tells one client this text, where one comes. It takes no memory.
pub fn explain_one<F: Front>(front: &mut F, text: &[u8]) -> Result<(), Failed>
    ensures tape { Adds (F.tape front.old) (F.tape front.new) (ExplainsTo text.now result) }
    ensures alone { FrontAlone (F.faults front.old) (F.faults front.new) }
    ensures cause { OnErr result (Rose (F.faults front.old).front (F.faults front.new).front) }
    ensures hidden { F.hidden front.new ≡ F.hidden front.old }
{
    match front.accept() {
        Err(failed) => Err(failed),
        Ok(false) => Ok(()),
        Ok(true) => tell_client(front, text),
    }
}
