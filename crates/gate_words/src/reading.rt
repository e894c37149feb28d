// Reading the words of a command.
ghost use Rattle.std.specs.Prelude.{◌≡◌, List, ℕ, [], ◌∷◌, codes, drop, map, string_bytes, IfOk, IfErr, IfSome, IfNone, IsTrue, None, Some};
ghost use Rattle.gate_words.specs.reading.Lent.{setting_in, place_in};
ghost use Rattle.gate_words.specs.reading.Words as spec;
ghost use Rattle.gate_words.specs.Rules as rule;
ghost use Rattle.gate_words.specs.Options.{values_of};
ghost use Rattle.gate_words.specs.Task.{IsTask, IsServe, IsOnce, IsStore, IsCheck, Spelled, NamesPlace};
ghost use Rattle.gate_words.specs.declared.option.Name.TheVariants.{User};
ghost use Rattle.gate_words.specs.declared.place.Place.{Place};
ghost use Rattle.gate_words.specs.declared.task.Task.{Task};
ghost use Rattle.gate_words.specs.declared.task.Task.TheVariants.{Show};
ghost use Rattle.gate_words.specs.declared.task.WordsError.TheVariants.{Refused};

use crate::commands::{check_matches, once_matches, serve_matches, show_matches, store_matches};
use crate::connections::connections_in;
use crate::found::{check_found, once_found, serve_found, store_found};
use crate::option::{LentSetting, Name};
use crate::place::LentPlace;
use crate::rules::{is_base, is_user};
use crate::settings::{is_absent, settings_of, single};
use crate::{Page, Task, WordsError};
use std::alloc::Global;

/// The place whose user and base are taken.
fn ruled<'a>(place: LentPlace<'a>) -> Option<LentPlace<'a>>
    ensures some { IfSome result (λ p. (p ≡ place.entry) × IsTrue (rule.is_user p.user.now) × IsTrue (rule.is_base p.base.now)) }
    ensures none { IfNone result (IsTrue (rule.is_user place.entry.user.now) → IsTrue (rule.is_base place.entry.base.now) → ⊥) }
{
    if is_user(place.user) && is_base(place.base) {
        Some(place)
    } else {
        None
    }
}

/// The place that settings name.
fn place_named<'a>(settings: &[LentSetting<'a>]) -> Option<LentPlace<'a>>
    ensures some { IfSome result (λ p. NamesPlace (map setting_in settings.now) (place_in p)) }
    ensures none { IfNone result ((place : Place) → NamesPlace (map setting_in settings.now) place → ⊥) }
{
    let store = single(settings, Name::Store)?;
    let user = single(settings, Name::User)?;
    let base = single(settings, Name::Base)?;
    ruled(LentPlace { store, user, base })
}

/// The user that settings name.
fn user_named<'a>(settings: &[LentSetting<'a>]) -> Option<&'a str>
    ensures some { IfSome result (λ user. (values_of User (map setting_in settings.now) ≡ user.now ∷ []) × IsTrue (rule.is_user user.now)) }
    ensures none { IfNone result ((user : List ℕ) → values_of User (map setting_in settings.now) ≡ user ∷ [] → IsTrue (rule.is_user user) → ⊥) }
{
    let user = single(settings, Name::User)?;
    if is_user(user) { Some(user) } else { None }
}

/// The task of the command `serve` that words ask for, which spell these settings.
fn serve_by(
    alloc: Global,
    words: &[String],
    settings: &[LentSetting<'_>],
) -> Result<Task, WordsError>
    requires spelled { spec.settings None (drop 1 (map string_bytes words.now)) ≡ Some (map setting_in settings.now) }
    ensures ok { IfOk result (IsServe (map setting_in settings.now)) }
    ensures refused { IfErr result (λ error. error ≡ Refused → (task : Task) → IsServe (map setting_in settings.now) task → ⊥) }
{
    let Some(_place) = place_named(settings) else {
        return Err(WordsError::Refused);
    };
    let Some(_listen) = single(settings, Name::Listen) else {
        return Err(WordsError::Refused);
    };
    let Some(_connections) = connections_in(settings) else {
        return Err(WordsError::Refused);
    };
    match serve_matches(alloc, words) {
        Ok(matches) => serve_found(alloc, &matches),
        Err(error) => Err(error),
    }
}

/// The task of the command `once` that words ask for, which spell these settings.
fn once_by(
    alloc: Global,
    words: &[String],
    settings: &[LentSetting<'_>],
) -> Result<Task, WordsError>
    requires spelled { spec.settings None (drop 1 (map string_bytes words.now)) ≡ Some (map setting_in settings.now) }
    ensures ok { IfOk result (IsOnce (map setting_in settings.now)) }
    ensures refused { IfErr result (λ error. error ≡ Refused → (task : Task) → IsOnce (map setting_in settings.now) task → ⊥) }
{
    let Some(_place) = place_named(settings) else {
        return Err(WordsError::Refused);
    };
    if !is_absent(settings, Name::Listen) || !is_absent(settings, Name::Connections) {
        return Err(WordsError::Refused);
    }
    match once_matches(alloc, words) {
        Ok(matches) => once_found(alloc, &matches),
        Err(error) => Err(error),
    }
}

/// The task of the command `store` that words ask for, which spell these settings.
fn store_by(
    alloc: Global,
    words: &[String],
    settings: &[LentSetting<'_>],
) -> Result<Task, WordsError>
    requires spelled { spec.settings None (drop 1 (map string_bytes words.now)) ≡ Some (map setting_in settings.now) }
    ensures ok { IfOk result (IsStore (map setting_in settings.now)) }
    ensures refused { IfErr result (λ error. error ≡ Refused → (task : Task) → IsStore (map setting_in settings.now) task → ⊥) }
{
    let Some(_listen) = single(settings, Name::Listen) else {
        return Err(WordsError::Refused);
    };
    let Some(_connections) = connections_in(settings) else {
        return Err(WordsError::Refused);
    };
    if !is_absent(settings, Name::Store)
        || !is_absent(settings, Name::User)
        || !is_absent(settings, Name::Base)
    {
        return Err(WordsError::Refused);
    }
    match store_matches(alloc, words) {
        Ok(matches) => store_found(alloc, &matches),
        Err(error) => Err(error),
    }
}

/// The task of the command `check` that words ask for, which spell these settings.
fn check_by(
    alloc: Global,
    words: &[String],
    settings: &[LentSetting<'_>],
) -> Result<Task, WordsError>
    requires spelled { spec.settings None (drop 1 (map string_bytes words.now)) ≡ Some (map setting_in settings.now) }
    ensures ok { IfOk result (IsCheck (map setting_in settings.now)) }
    ensures refused { IfErr result (λ error. error ≡ Refused → (task : Task) → IsCheck (map setting_in settings.now) task → ⊥) }
{
    let Some(_store) = single(settings, Name::Store) else {
        return Err(WordsError::Refused);
    };
    let Some(_user) = user_named(settings) else {
        return Err(WordsError::Refused);
    };
    if !is_absent(settings, Name::Base)
        || !is_absent(settings, Name::Listen)
        || !is_absent(settings, Name::Connections)
    {
        return Err(WordsError::Refused);
    }
    match check_matches(alloc, words) {
        Ok(matches) => check_found(alloc, &matches),
        Err(error) => Err(error),
    }
}

/// The task of the command `serve`, which the words are with these options.
fn serve(alloc: Global, words: &[String], options: &[String]) -> Result<Task, WordsError>
    requires words { drop 1 (map string_bytes words.now) ≡ map string_bytes options.now }
    ensures ok { IfOk result (Spelled IsServe (map string_bytes options.now)) }
    ensures refused { IfErr result (λ error. error ≡ Refused → (task : Task) → Spelled IsServe (map string_bytes options.now) task → ⊥) }
{
    match settings_of(alloc, options) {
        Ok(settings) => serve_by(alloc, words, settings.as_slice()),
        Err(error) => Err(error),
    }
}

/// The task of the command `once`, which the words are with these options.
fn once(alloc: Global, words: &[String], options: &[String]) -> Result<Task, WordsError>
    requires words { drop 1 (map string_bytes words.now) ≡ map string_bytes options.now }
    ensures ok { IfOk result (Spelled IsOnce (map string_bytes options.now)) }
    ensures refused { IfErr result (λ error. error ≡ Refused → (task : Task) → Spelled IsOnce (map string_bytes options.now) task → ⊥) }
{
    match settings_of(alloc, options) {
        Ok(settings) => once_by(alloc, words, settings.as_slice()),
        Err(error) => Err(error),
    }
}

/// The task of the command `store`, which the words are with these options.
fn store(alloc: Global, words: &[String], options: &[String]) -> Result<Task, WordsError>
    requires words { drop 1 (map string_bytes words.now) ≡ map string_bytes options.now }
    ensures ok { IfOk result (Spelled IsStore (map string_bytes options.now)) }
    ensures refused { IfErr result (λ error. error ≡ Refused → (task : Task) → Spelled IsStore (map string_bytes options.now) task → ⊥) }
{
    match settings_of(alloc, options) {
        Ok(settings) => store_by(alloc, words, settings.as_slice()),
        Err(error) => Err(error),
    }
}

/// The task of the command `check`, which the words are with these options.
fn check(alloc: Global, words: &[String], options: &[String]) -> Result<Task, WordsError>
    requires words { drop 1 (map string_bytes words.now) ≡ map string_bytes options.now }
    ensures ok { IfOk result (Spelled IsCheck (map string_bytes options.now)) }
    ensures refused { IfErr result (λ error. error ≡ Refused → (task : Task) → Spelled IsCheck (map string_bytes options.now) task → ⊥) }
{
    match settings_of(alloc, options) {
        Ok(settings) => check_by(alloc, words, settings.as_slice()),
        Err(error) => Err(error),
    }
}

/// The task of the command `show`, which the words are with these options: it has none.
fn show(alloc: Global, words: &[String], options: &[String]) -> Result<Task, WordsError>
    requires words { drop 1 (map string_bytes words.now) ≡ map string_bytes options.now }
    ensures ok { IfOk result (λ task. (task ≡ Show) × (map string_bytes options.now ≡ [])) }
    ensures refused { IfErr result (λ error. error ≡ Refused → map string_bytes options.now ≡ [] → ⊥) }
{
    if !options.is_empty() {
        return Err(WordsError::Refused);
    }
    match show_matches(alloc, words) {
        Ok(_) => Ok(Task::Show),
        Err(error) => Err(error),
    }
}

/// The page that an option asks for, where the one on its command is given.
fn page_by(option: &str, page: Page) -> Option<Page>
    ensures { result ≡ spec.page_by option.now page }
{
    match option {
        "--help" => Some(page),
        "--version" => Some(Page::Version),
        _ => None,
    }
}

/// The page on a command.
fn page_on(command: &str) -> Option<Page>
    ensures { result ≡ spec.page_on command.now }
{
    match command {
        "serve" => Some(Page::Serve),
        "once" => Some(Page::Once),
        "show" => Some(Page::Show),
        "store" => Some(Page::Store),
        "check" => Some(Page::Check),
        _ => None,
    }
}

/// The page that the words ask for.
fn page_of(words: &[String]) -> Option<Page>
    ensures { result ≡ spec.page_of (map string_bytes words.now) }
{
    match words {
        [option] => page_by(option.as_str(), Page::Program),
        [command, option] => page_by(option.as_str(), page_on(command.as_str())?),
        _ => None,
    }
}

/// The task that words ask for which ask for no page.
fn command_task(alloc: Global, words: &[String]) -> Result<Task, WordsError>
    requires no_page { spec.page_of (map string_bytes words.now) ≡ None }
    ensures ok { IfOk result (λ task. IsTask (map string_bytes words.now) task) }
    ensures refused { IfErr result (λ error. error ≡ Refused
        → (task : Task) → IsTask (map string_bytes words.now) task → ⊥) }
{
    let Some((command, options)) = words.split_first() else {
        return Err(WordsError::Refused);
    };
    match command.as_str() {
        "serve" => serve(alloc, words, options),
        "once" => once(alloc, words, options),
        "show" => show(alloc, words, options),
        "store" => store(alloc, words, options),
        "check" => check(alloc, words, options),
        _ => Err(WordsError::Refused),
    }
}

/// The task that the words of a command ask for, the program's own name left out.
pub fn read_words(alloc: Global, words: &[String]) -> Result<Task, WordsError>
    ensures ok { IfOk result (λ task. IsTask (map string_bytes words.now) task) }
    ensures refused { IfErr result (λ error. error ≡ Refused
        → (task : Task) → ¬ IsTask (map string_bytes words.now) task) }
{
    match page_of(words) {
        Some(page) => Ok(Task::Explain { page }),
        None => command_task(alloc, words),
    }
}

/// The law that words are one task at most.
pub fn one_task()
    ensures { (words : List (List ℕ)) (first second : Task) → IsTask words first
        → IsTask words second → first ≡ second }
{}
