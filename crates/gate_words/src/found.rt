// The tasks that what clap found comes to.
ghost use Rattle.std.specs.Prelude.{◌≡◌, IfOk, IfErr, IfSome, IfNone};
ghost use Rattle.gate_words.specs.reading.Commands.{IsCheckIn, IsOnceIn, IsServeIn, IsStoreIn, PlaceIn, value_in};
ghost use Rattle.gate_words.specs.reading.Lent.{place_in};
ghost use Rattle.gate_words.specs.declared.place.Place.{Place};
ghost use Rattle.gate_words.specs.declared.task.Task.{Task};
ghost use Rattle.gate_words.specs.declared.task.WordsError.TheVariants.{Refused};

use crate::connections::connections_given;
use crate::place::{LentPlace, owned};
use crate::{Task, WordsError};
use clap::ArgMatches;
use octets::Text;
use std::alloc::Global;

/// The place that was found.
fn place_found<'a>(matches: &ArgMatches<'a>) -> Option<LentPlace<'a>>
    ensures some { IfSome result (λ p. PlaceIn (value_in matches.now) (place_in p)) }
    ensures none { IfNone result ((place : Place) → PlaceIn (value_in matches.now) place → ⊥) }
{
    let store = matches.get_str("store")?;
    let user = matches.get_str("user")?;
    let base = matches.get_str("base")?;
    Some(LentPlace { store, user, base })
}

/// The task of the command `serve` that was found.
pub(crate) fn serve_found(alloc: Global, matches: &ArgMatches<'_>) -> Result<Task, WordsError>
    ensures ok { IfOk result (IsServeIn (value_in matches.now)) }
    ensures refused { IfErr result (λ error. error ≡ Refused → (task : Task) → IsServeIn (value_in matches.now) task → ⊥) }
{
    let Some(place) = place_found(matches) else {
        return Err(WordsError::Refused);
    };
    let Some(listen) = matches.get_str("listen") else {
        return Err(WordsError::Refused);
    };
    let Some(connections) = connections_given(matches.get_str("connections")) else {
        return Err(WordsError::Refused);
    };
    Ok(Task::Serve {
        place: owned(alloc, place)?,
        listen: Text::copy_of(alloc, listen)?,
        connections,
    })
}

/// The task of the command `once` that was found.
pub(crate) fn once_found(alloc: Global, matches: &ArgMatches<'_>) -> Result<Task, WordsError>
    ensures ok { IfOk result (IsOnceIn (value_in matches.now)) }
    ensures refused { IfErr result (λ error. error ≡ Refused → (task : Task) → IsOnceIn (value_in matches.now) task → ⊥) }
{
    let Some(place) = place_found(matches) else {
        return Err(WordsError::Refused);
    };
    Ok(Task::Once {
        place: owned(alloc, place)?,
    })
}

/// The task of the command `store` that was found.
pub(crate) fn store_found(alloc: Global, matches: &ArgMatches<'_>) -> Result<Task, WordsError>
    ensures ok { IfOk result (IsStoreIn (value_in matches.now)) }
    ensures refused { IfErr result (λ error. error ≡ Refused → (task : Task) → IsStoreIn (value_in matches.now) task → ⊥) }
{
    let Some(listen) = matches.get_str("listen") else {
        return Err(WordsError::Refused);
    };
    let Some(connections) = connections_given(matches.get_str("connections")) else {
        return Err(WordsError::Refused);
    };
    Ok(Task::Store {
        listen: Text::copy_of(alloc, listen)?,
        connections,
    })
}

/// The task of the command `check` that was found.
pub(crate) fn check_found(alloc: Global, matches: &ArgMatches<'_>) -> Result<Task, WordsError>
    ensures ok { IfOk result (IsCheckIn (value_in matches.now)) }
    ensures refused { IfErr result (λ error. error ≡ Refused → (task : Task) → IsCheckIn (value_in matches.now) task → ⊥) }
{
    let Some(store) = matches.get_str("store") else {
        return Err(WordsError::Refused);
    };
    let Some(user) = matches.get_str("user") else {
        return Err(WordsError::Refused);
    };
    Ok(Task::Check {
        store: Text::copy_of(alloc, store)?,
        user: Text::copy_of(alloc, user)?,
    })
}
