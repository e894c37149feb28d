// The settings that words spell, and the values that they give to an option.
ghost use Rattle.std.specs.Prelude.{◌≡◌, None, Some, ℕ, List, [], ◌∷◌, ◌++◌, option_map, map, string_bytes, IfOk, IfErr, IfSome, IfNone, IsTrue, ◌↔◌};
ghost use Rattle.gate_words.specs.reading.Lent.{setting_in, kind_in, IsGiven};
ghost use Rattle.gate_words.specs.Options.{values_of};
ghost use Rattle.gate_words.specs.reading.Words as spec;
ghost use Rattle.gate_words.specs.declared.task.WordsError.TheVariants.{Refused};

use crate::WordsError;
use crate::option::{LentSetting, Name, joined, name_of};
use std::alloc::{AllocError, Global};

/// What a word comes to.
#[derive(Clone, Copy)]
enum WordKind<'a> {
    /// An option, whose value is the next word.
    Name(Name),
    /// An option with its value.
    Setting(LentSetting<'a>),
}

/// What a word comes to where no option waits for its value.
fn kind_where_none_waits<'a>(word: &'a str) -> Option<WordKind<'a>>
    ensures { option_map kind_in result ≡ spec.kind_where_none_waits (spec.name_of word.now) word.now }
{
    match name_of(word) {
        Some(name) => Some(WordKind::Name(name)),
        None => Some(WordKind::Setting(joined(word)?)),
    }
}

/// What a word comes to. The value of an option that waits does not begin with `-`.
fn kind_of<'a>(waiting: Option<Name>, word: &'a str) -> Option<WordKind<'a>>
    ensures { option_map kind_in result ≡ spec.kind_of waiting word.now }
{
    match waiting {
        None => kind_where_none_waits(word),
        Some(_) if word.starts_with('-') => None,
        Some(name) => Some(WordKind::Setting(LentSetting { name, value: word })),
    }
}

/// Adds a setting at the end.
fn add<'a>(settings: &mut Vec<LentSetting<'a>>, setting: LentSetting<'a>) -> Result<(), AllocError>
    ensures { IfOk result (λ _. settings.new.items ≡ settings.old.items ++ setting.entry ∷ []) }
{
    settings.push(setting)?;
    Ok(())
}

/// The settings that the words spell, in order.
pub(crate) fn settings_of<'a>(
    alloc: Global,
    words: &'a [String],
) -> Result<Vec<LentSetting<'a>>, WordsError>
    ensures ok { IfOk result (λ settings. spec.settings None (map string_bytes words.now) ≡ Some (map setting_in settings.items)) }
    ensures refused { IfErr result (λ error. error ≡ Refused → spec.settings None (map string_bytes words.now) ≡ None) }
{
    let mut settings = Vec::new(alloc);
    let mut waiting = None;
    for word in words {
        match kind_of(waiting, word) {
            None => return Err(WordsError::Refused),
            Some(WordKind::Name(name)) => waiting = Some(name),
            Some(WordKind::Setting(setting)) => {
                add(&mut settings, setting)?;
                waiting = None;
            }
        }
    }
    if waiting.is_some() {
        return Err(WordsError::Refused);
    }
    Ok(settings)
}

/// The values that an option is given.
#[derive(Clone, Copy)]
pub(crate) enum GivenValues<'a> {
    Absent,
    Single(&'a str),
    Several,
}

/// The values with one more.
fn with_value<'a>(given: GivenValues<'a>, value: &'a str) -> GivenValues<'a>
    ensures { (values : List (List ℕ)) → IsGiven given.entry values → IsGiven result (values ++ value.now ∷ []) }
{
    match given {
        GivenValues::Absent => GivenValues::Single(value),
        _ => GivenValues::Several,
    }
}

fn is_same(one: Name, other: Name) -> bool
    ensures { IsTrue result ↔ (one ≡ other) }
{
    one == other
}

/// The values with that of a setting, where it is of this option.
fn with_setting<'a>(
    given: GivenValues<'a>,
    setting: &LentSetting<'a>,
    name: Name,
) -> GivenValues<'a>
    ensures { (values : List (List ℕ)) → IsGiven given.entry values → IsGiven result (values ++ values_of name (setting_in setting.now ∷ [])) }
{
    if is_same(setting.name, name) {
        with_value(given, setting.value)
    } else {
        given
    }
}

/// The values that settings give to an option.
pub(crate) fn given_values<'a>(settings: &[LentSetting<'a>], name: Name) -> GivenValues<'a>
    ensures { IsGiven result (values_of name (map setting_in settings.now)) }
{
    let mut given = GivenValues::Absent;
    for setting in settings {
        given = with_setting(given, setting, name);
    }
    given
}

/// The one value of an option.
pub(crate) fn single<'a>(settings: &[LentSetting<'a>], name: Name) -> Option<&'a str>
    ensures some { IfSome result (λ value. values_of name (map setting_in settings.now) ≡ value.now ∷ []) }
    ensures none { IfNone result ((value : List ℕ) → values_of name (map setting_in settings.now) ≡ value ∷ [] → ⊥) }
{
    match given_values(settings, name) {
        GivenValues::Single(value) => Some(value),
        GivenValues::Absent | GivenValues::Several => None,
    }
}

/// Whether an option is given no value.
pub(crate) fn is_absent(settings: &[LentSetting<'_>], name: Name) -> bool
    ensures { IsTrue result ↔ (values_of name (map setting_in settings.now) ≡ []) }
{
    match given_values(settings, name) {
        GivenValues::Absent => true,
        GivenValues::Single(_) | GivenValues::Several => false,
    }
}
