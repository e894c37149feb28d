// What a client gives.
ghost use Rattle.std.specs.Prelude.{◌≡◌, IsErrOf};
ghost use Rattle.gate_world.specs.Causes.{Rose, FrontAlone};
ghost use Rattle.gate_world.specs.Tape.{Adds};
ghost use Rattle.gate_serving.specs.Front.{input_octets, GivesInput};

use gate_world::{Failed, FillError, Front, Unread};
use octets::Bytes;
use std::alloc::{AllocError, Global};

/// What a client gives.
#[derive(Debug, Drop)]
pub enum Input {
    /// All of it, up to its end.
    Whole(Bytes),
    /// As many octets as are wanted. What comes after them is not read.
    Cut(Bytes),
}

impl Input {
    /// What was read, whole or cut.
    pub fn octets(&self) -> &[u8]
        ensures { result.now ≡ input_octets self.now }
    {
        match self {
            Input::Whole(octets) | Input::Cut(octets) => octets.as_slice(),
        }
    }
}

/// Why a client is given up.
#[derive(Clone, Copy, Debug, PartialEq, Eq)]
pub enum FrontError {
    /// The front failed.
    Failed,
    /// Out of memory.
    Memory,
}

impl From<Failed> for FrontError {
    ghost use Rattle.gate_serving.specs.declared.front.FrontError.TheVariants.{Failed};
    ghost use Rattle.std.specs.Prelude.{◌≡◌};

    ghost from_gives = { λ _ e. e ≡ Failed };

    fn from(_: Failed) -> FrontError {
        FrontError::Failed
    }
}

impl From<FillError> for FrontError {
    ghost use Rattle.gate_serving.specs.Front.{error_of_fill};
    ghost use Rattle.std.specs.Prelude.{◌≡◌};

    ghost from_gives = { λ f e. e ≡ error_of_fill f };

    fn from(error: FillError) -> FrontError {
        match error {
            FillError::Failed => FrontError::Failed,
            FillError::Memory => FrontError::Memory,
        }
    }
}

impl From<AllocError> for FrontError {
    ghost use Rattle.gate_serving.specs.declared.front.FrontError.TheVariants.{Memory};
    ghost use Rattle.std.specs.Prelude.{◌≡◌};

    ghost from_gives = { λ _ e. e ≡ Memory };

    fn from(_: AllocError) -> FrontError {
        FrontError::Memory
    }
}

/// The client's octets up to the end of its input, or the first of them, as many as are wanted at most.
pub fn receive<F: Front>(alloc: Global, front: &mut F, most: usize) -> Result<Input, FrontError>
    ensures tape { Adds (F.tape front.old) (F.tape front.new) (GivesInput most result) }
    ensures alone { FrontAlone (F.faults front.old) (F.faults front.new) }
    ensures cause { IsErrOf result FrontError.Failed → Rose (F.faults front.old).front (F.faults front.new).front }
    ensures hidden { F.hidden front.new ≡ F.hidden front.old }
{
    let mut octets = Unread::new(alloc);
    'receiving: while octets.as_slice().len() < most {
        let missing = most - octets.as_slice().len();
        if !octets.fill_from_client(front, missing)? {
            return Ok(Input::Whole(Bytes::from_vec(octets.into_vec())?));
        }
    }
    Ok(Input::Cut(Bytes::from_vec(octets.into_vec())?))
}
