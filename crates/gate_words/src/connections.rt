// How many connections are served.
ghost use Rattle.std.specs.Prelude.{◌≡◌, ◌≤◌, ℕ, List, ◌∷◌, [], map, option_copied, IfSome, IfNone};
ghost use Rattle.gate_words.specs.Connections.{IsCount, CountsConnections};
ghost use Rattle.gate_words.specs.reading.Commands.{CountsGiven};
ghost use Rattle.gate_words.specs.Connections as spec;
ghost use Rattle.gate_words.specs.reading.Lent.{setting_in};
ghost use Rattle.gate_words.specs.Options.{values_of};
ghost use Rattle.gate_words.specs.declared.option.Name.TheVariants.{Connections};

use crate::option::{LentSetting, Name};
use crate::settings::{GivenValues, given_values};

/// How many connections are served at most, and where the words do not say how many.
pub const MAX_CONNECTIONS: u64 = 9_223_372_036_854_775_807;

fn begins_with_nonzero_digit(text: &str) -> bool
    ensures { result ≡ spec.begins_with_nonzero_digit text.now }
{
    match text.as_bytes() {
        [octet, ..] => b'1' <= *octet && *octet <= b'9',
        [] => false,
    }
}

/// The number from 1 to `MAX_CONNECTIONS` that a text is in decimal digits, without a sign or a leading zero.
fn count_of(text: &str) -> Option<u64>
    ensures some { IfSome result (IsCount text.now) }
    ensures none { IfNone result ((count : ℕ) → IsCount text.now count → ⊥) }
{
    if !begins_with_nonzero_digit(text) {
        return None;
    }
    match text.parse::<u64>() {
        Ok(count) if count <= MAX_CONNECTIONS => Some(count),
        Ok(_) | Err(_) => None,
    }
}

/// How many connections settings ask for.
pub(crate) fn connections_in(settings: &[LentSetting<'_>]) -> Option<u64>
    ensures some { IfSome result (CountsConnections (values_of Connections (map setting_in settings.now))) }
    ensures none { IfNone result ((count : ℕ) → CountsConnections (values_of Connections (map setting_in settings.now)) count → ⊥) }
{
    match given_values(settings, Name::Connections) {
        GivenValues::Absent => Some(MAX_CONNECTIONS),
        GivenValues::Single(value) => count_of(value),
        GivenValues::Several => None,
    }
}

/// How many connections a text asks for, where there is one.
pub(crate) fn connections_given(given: Option<&str>) -> Option<u64>
    ensures some { IfSome result (CountsGiven (option_copied given.entry)) }
    ensures none { IfNone result ((count : ℕ) → CountsGiven (option_copied given.entry) count → ⊥) }
{
    match given {
        None => Some(MAX_CONNECTIONS),
        Some(text) => count_of(text),
    }
}
