// A call, and how it may end.

use jmap_arguments::MethodError;
use jmap_core::CreatedIds;
use mail_state::MailState;
use set_methods::SetChecks;
use std::alloc::AllocError;
use std::collections::BTreeSet;

/// What a call's items are done over.
#[derive(Clone, Copy)]
pub struct Call<'a, 'k> {
    /// The mail as it is served, as the call begins.
    pub state: &'a MailState,
    /// The ids that the request created before the call.
    pub created: &'a CreatedIds,
    /// The creation ids of what the call is to make.
    pub making: &'a BTreeSet<&'k str>,
    /// What an item has to pass.
    pub checks: SetChecks<'a>,
}

/// Why a call's items weren't all done.
#[derive(Debug, Drop)]
pub enum CallEnd {
    /// An item ended the call.
    Fails(MethodError),
    /// Out of memory.
    Memory,
}

impl From<AllocError> for CallEnd {
    ghost use Rattle.set_calls.specs.declared.call.CallEnd.TheVariants.{Memory};
    ghost use Rattle.std.specs.Prelude.{◌≡◌};

    ghost from_gives = { λ _ e. e ≡ Memory };

    fn from(_: AllocError) -> CallEnd {
        CallEnd::Memory
    }
}
