// Where bodies come from.
ghost use Rattle.std.specs.Prelude.{List, ℕ, Option, Some, None, IfOk, IsErrOf};
ghost use Rattle.email_bodies.specs.declared.source.MessagePlace.{MessagePlace as place_type};

use crate::BodyError;
use octets::Bytes;

/// The message of an Email in the store.
#[derive(Clone, Copy, Debug, PartialEq, Eq)]
pub struct MessagePlace {
    /// The number of the Email.
    pub email: u64,
    /// The number of the folder that the message is in.
    pub folder: u64,
    /// Its UID there.
    pub uid: u32,
}

/// Where the bodies of Emails come from, with the outside W in which they may be asked. What asking does is known to contracts alone.
pub trait BodySource<W> {
    /// That asking for the body of the message is answered by these octets, or by none where the body doesn't come: the source and the
    /// outside before and after.
    ghost answers: { Self × W → place_type → Option (List ℕ) → Self × W → Type 0 };

    /// That memory runs out as the body of the message is asked: the source and the outside before and after.
    ghost lacks: { Self × W → place_type → Self × W → Type 0 };

    /// The octets of the message.
    fn body(&mut self, world: &mut W, message: MessagePlace) -> Result<Bytes, BodyError>
        ensures body { IfOk result (λ octets. answers (self.old, world.old) message (Some octets) (self.new, world.new)) }
        ensures ended { IsErrOf result BodyError.Ended → answers (self.old, world.old) message None (self.new, world.new) }
        ensures memory { IsErrOf result BodyError.Memory → lacks (self.old, world.old) message (self.new, world.new) };
}
