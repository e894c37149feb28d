// Where the mail can't be told.

use crate::method::Method;
use crate::methods::reply_without;
use crate::source::CallSource;
use blob_store::BlobStore;
use jmap_arguments::MethodError;
use jmap_core::CreatedIds;
use serde_json::Value;
use std::alloc::Global;

/// No mail, and the error of each call that needs it.
#[derive(Drop)]
pub struct NoMail {
    /// The error.
    pub error: MethodError,
}

impl<W> CallSource<W> for NoMail {
    ghost use Rattle.std.specs.Prelude.{◌≡◌, [], Err};
    ghost use Rattle.gate_calls.specs.Methods.{RepliesTo};

    ghost answers = { λ uploads before m d r after. (after ≡ before)
        × RepliesTo m (record { mail = Err before.0.0.error; uploads = uploads }) d [] r };

    ghost lacks = { λ uploads before m d after. after ≡ before };

    fn reply(
        &mut self,
        alloc: Global,
        _world: &mut W,
        _uploads: &BlobStore,
        _created: &mut CreatedIds,
        method: Method,
        arguments: Value,
    ) -> Result<Value, MethodError> {
        reply_without(alloc, method, self.error, arguments)
    }
}
