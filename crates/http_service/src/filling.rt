// Octets that are asked for, where those that came are too few.
ghost use Rattle.std.specs.Prelude.{◌≡◌, ◌<◌, ◌≤◌, length, OnOk, IsErrOf};
ghost use Rattle.gate_world.specs.Causes.{Rose, FrontAlone};
ghost use Rattle.gate_world.specs.Tape.{Adds};
ghost use Rattle.http_service.specs.reading.Steps.{Fills, FillsTo, Grows};

use crate::error::HttpError;
use gate_world::{Front, Unread};

/// Asks the client once, for at most `most` octets, and says whether some came.
pub(crate) fn fill<F: Front>(
    front: &mut F,
    spare: &mut Unread,
    most: usize,
) -> Result<bool, HttpError>
    requires { 0 < most }
    ensures tape { Adds (F.tape front.old) (F.tape front.new) (Fills spare.old spare.new result) }
    ensures grows { Grows spare.old spare.new most result }
    ensures alone { FrontAlone (F.faults front.old) (F.faults front.new) }
    ensures cause { IsErrOf result HttpError.FrontFault → Rose (F.faults front.old).front (F.faults front.new).front }
    ensures hidden { F.hidden front.new ≡ F.hidden front.old }
{
    match spare.fill_from_client(front, most) {
        Ok(some) => Ok(some),
        Err(error) => Err(HttpError::from(error)),
    }
}

/// Asks until `size` octets stand there, and for none that aren't needed for that.
pub(crate) fn fill_to<F: Front>(
    front: &mut F,
    spare: &mut Unread,
    size: usize,
) -> Result<(), HttpError>
    ensures tape { Adds (F.tape front.old) (F.tape front.new) (FillsTo size spare.old spare.new result) }
    ensures filled { OnOk result (size ≤ length spare.new) }
    ensures alone { FrontAlone (F.faults front.old) (F.faults front.new) }
    ensures cause { IsErrOf result HttpError.FrontFault → Rose (F.faults front.old).front (F.faults front.new).front }
    ensures hidden { F.hidden front.new ≡ F.hidden front.old }
{
    'filling: while spare.as_slice().len() < size {
        let missing = size - spare.as_slice().len();
        if !fill(front, spare, missing)? {
            return Err(HttpError::Short);
        }
    }
    Ok(())
}
