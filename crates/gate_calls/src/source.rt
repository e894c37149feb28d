// What answers the calls of a request.
ghost use Rattle.std.specs.Prelude.{◌≡◌, ℕ, List, IfOk, Result as result_type, false};
ghost use Rattle.serde_json.specs.Data.{Data};
ghost use Rattle.serde_json.specs.View.{view};
ghost use Rattle.serde_json.specs.Written.{has_float};
ghost use Rattle.jmap_arguments.specs.declared.method_error.MethodError.{MethodError as error_type};
ghost use Rattle.jmap_core.specs.CreatedIds.{Ids};
ghost use Rattle.gate_calls.specs.Sources.{Gives};
ghost use Rattle.gate_calls.specs.declared.method.Method.{Method as method_type};

use crate::method::Method;
use blob_store::BlobStore;
use jmap_arguments::MethodError;
use jmap_core::CreatedIds;
use serde_json::Value;
use std::alloc::Global;

/// What answers the calls of a request one after another, each over the mail that is served at its moment, with the outside W. What
/// answering does is known to contracts alone.
pub trait CallSource<W> {
    /// That a method over these arguments, beside these uploads, comes to this: the source, the outside and the ids that were created before
    /// and after.
    ghost answers: { List (List ℕ) → (Self × W) × Ids → method_type → Data → result_type Data error_type → (Self × W) × Ids → Type 0 };

    /// That memory runs out as it is answered: the same before and after.
    ghost lacks: { List (List ℕ) → (Self × W) × Ids → method_type → Data → (Self × W) × Ids → Type 0 };

    /// What the method answers.
    fn reply(
        &mut self,
        alloc: Global,
        world: &mut W,
        uploads: &BlobStore,
        created: &mut CreatedIds,
        method: Method,
        arguments: Value,
    ) -> Result<Value, MethodError>
        ensures meant { Gives (λ r. answers uploads.now ((self.old, world.old), created.old) method (view arguments) r ((self.new, world.new), created.new))
            (lacks uploads.now ((self.old, world.old), created.old) method (view arguments) ((self.new, world.new), created.new)) result }
        ensures whole { IfOk result (λ value. has_float (view value) ≡ false) };
}
