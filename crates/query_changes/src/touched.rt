// What was touched since the state that is named.
ghost use Rattle.std.specs.Prelude.{◌≡◌, ◌⊎◌, IfErr, IfOk};
ghost use Rattle.jmap_arguments.specs.declared.method_error.MethodError.TheVariants.{Memory};
ghost use Rattle.query_changes.specs.reading.Found.{FindsNone, TouchedSince};

use change_list::{ChangeList, SinceError};
use jmap_arguments::{MethodError, State, read_place};
use octets::Listed;

/// What was touched since a state of a type.
#[derive(Drop)]
pub(crate) struct Touched {
    /// The last state.
    pub last: State,
    /// The ids, ascending, each with whether it was there.
    pub ids: Listed<(u64, bool)>,
}

/// What was touched since the state that is named, where all that was touched after it is still kept.
pub(crate) fn touched_since(
    epoch: u64,
    list: &ChangeList,
    since: &str,
) -> Result<Touched, MethodError>
    ensures found { IfOk result (λ t. TouchedSince epoch list.now since.now t.last t.ids) }
    ensures none { IfErr result (λ e. (e ≡ Memory) ⊎ FindsNone epoch list.now since.now e) }
{
    let last = State {
        epoch,
        place: list.place(),
    };
    let Some(place) = read_place(epoch, since) else {
        return Err(MethodError::CannotCalculateChanges);
    };
    match list.touched(place) {
        Ok(ids) => Ok(Touched { last, ids }),
        Err(SinceError::BeforeFront { .. }) => Err(MethodError::CannotCalculateChanges),
        Err(SinceError::AfterEnd { .. }) => Err(MethodError::CannotCalculateChanges),
        Err(SinceError::Memory) => Err(MethodError::Memory),
    }
}
