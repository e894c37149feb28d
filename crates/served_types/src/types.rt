// What a /get asks of a type that is served: the numbers that there are, and the state.
ghost use Rattle.std.specs.Prelude.{◌≡◌, IfOk, string_bytes};
ghost use Rattle.jmap_arguments.specs.State.{state_text as text_of_state};
ghost use Rattle.mail_state.specs.LookUps.{numbers_in, touches_kept};

use jmap_arguments::{Numbers, State, state_text};
use mail_state::{MailState, MailType};
use std::alloc::{AllocError, Global};

/// The numbers that a type has.
#[derive(Clone, Copy)]
pub struct TypeNumbers<'a> {
    /// The mail as it is served.
    pub state: &'a MailState,
    /// The type.
    pub kind: MailType,
}

impl<'a> Numbers for TypeNumbers<'a> {
    ghost numbers = { λ t. numbers_in t.state.now t.kind };

    fn has(&self, number: u64) -> bool {
        self.state.has(self.kind, number)
    }

    fn count(&self) -> usize {
        self.state.count(self.kind)
    }

    fn all(&self) -> Result<Vec<u64>, AllocError> {
        self.state.numbers(self.kind)
    }
}

/// The text of a type's state (RFC 8620 section 5.1): the epoch, and the type's place.
pub fn type_text(alloc: Global, state: &MailState, kind: MailType) -> Result<String, AllocError>
    ensures { IfOk result (λ text. string_bytes text ≡ text_of_state (record { epoch = state.now.epoch; place = (touches_kept state.now kind).place })) }
{
    let epoch = state.epoch();
    let place = state.list(kind).place();
    state_text(alloc, State { epoch, place })
}
