// The commands by which clap reads words that the rule takes.
ghost use Rattle.std.specs.Prelude.{◌≡◌, IfOk, IfErr, true, false, map, string_bytes};
ghost use Rattle.clap.specs.Words.{HasMatchesOf, app_of, found_of, kind_of, matches_of, rows_of, rule_of, takes};
ghost use Rattle.gate_words.specs.reading.Commands as spec;
ghost use Rattle.gate_words.specs.declared.task.WordsError.TheVariants.{Refused};

use crate::WordsError;
use clap::error::ErrorKind;
use clap::{Arg, ArgMatches, Command, Error};
use std::alloc::{AllocError, Global};

/// The option `--id VALUE`.
fn option_with<'a>(alloc: Global, id: &'a str, is_required: bool) -> Arg<'a>
    ensures rule { rule_of result ≡ spec.option_rule is_required id.entry.now }
    ensures local { result.global ≡ false }
{
    Arg::new(alloc, id).long(id).required(is_required)
}

/// The command with the options that name a store and its user.
fn with_account<'a>(alloc: Global, command: Command<'a>) -> Result<Command<'a>, AllocError>
    ensures { IfOk result (λ c. app_of c ≡ spec.with_account (app_of command.entry)) }
{
    let store = option_with(alloc, "store", true);
    let user = option_with(alloc, "user", true);
    let stored = command.arg(store)?;
    stored.arg(user)
}

/// The command with the options that name a place.
fn with_place<'a>(alloc: Global, command: Command<'a>) -> Result<Command<'a>, AllocError>
    ensures { IfOk result (λ c. app_of c ≡ spec.with_place (app_of command.entry)) }
{
    let base = option_with(alloc, "base", true);
    let account = with_account(alloc, command)?;
    account.arg(base)
}

/// The command with the options that say where clients are accepted, and how many.
fn with_listening<'a>(alloc: Global, command: Command<'a>) -> Result<Command<'a>, AllocError>
    ensures { IfOk result (λ c. app_of c ≡ spec.with_listening (app_of command.entry)) }
{
    let listen = option_with(alloc, "listen", true);
    let connections = option_with(alloc, "connections", false);
    let listening = command.arg(listen)?;
    listening.arg(connections)
}

/// Out of memory, or that the words are refused.
fn error_of(error: Error) -> WordsError
    ensures { result ≡ Refused → kind_of error ≡ ErrorKind.OutOfMemory → ⊥ }
{
    match error.kind() {
        ErrorKind::OutOfMemory => WordsError::Memory,
        _ => WordsError::Refused,
    }
}

/// What the command finds in the words, of which the first is its own name.
fn found<'a>(command: Command<'a>, words: &'a [String]) -> Result<ArgMatches<'a>, WordsError>
    ensures matches { IfOk result (HasMatchesOf (app_of command.entry) (map string_bytes words.entry.now)) }
    ensures refused { IfErr result (λ error. error ≡ Refused → takes (app_of command.entry) (map string_bytes words.entry.now) ≡ true → ⊥) }
{
    match command.try_get_matches_from(words) {
        Ok(matches) => Ok(matches),
        Err(error) => Err(error_of(error)),
    }
}

/// What the command `serve` finds in the words.
pub(crate) fn serve_matches<'a>(
    alloc: Global,
    words: &'a [String],
) -> Result<ArgMatches<'a>, WordsError>
    ensures found { IfOk result (λ m. rows_of (found_of m) ≡ matches_of spec.serve_app (map string_bytes words.entry.now)) }
    ensures refused { IfErr result (λ error. error ≡ Refused → takes spec.serve_app (map string_bytes words.entry.now) ≡ true → ⊥) }
{
    let placed = with_place(alloc, Command::new(alloc, "serve"))?;
    let command = with_listening(alloc, placed)?;
    found(command, words)
}

/// What the command `once` finds in the words.
pub(crate) fn once_matches<'a>(
    alloc: Global,
    words: &'a [String],
) -> Result<ArgMatches<'a>, WordsError>
    ensures found { IfOk result (λ m. rows_of (found_of m) ≡ matches_of spec.once_app (map string_bytes words.entry.now)) }
    ensures refused { IfErr result (λ error. error ≡ Refused → takes spec.once_app (map string_bytes words.entry.now) ≡ true → ⊥) }
{
    let command = with_place(alloc, Command::new(alloc, "once"))?;
    found(command, words)
}

/// What the command `show` finds in the words: it has no options.
pub(crate) fn show_matches<'a>(
    alloc: Global,
    words: &'a [String],
) -> Result<ArgMatches<'a>, WordsError>
    ensures refused { IfErr result (λ error. error ≡ Refused → takes spec.show_app (map string_bytes words.entry.now) ≡ true → ⊥) }
{
    found(Command::new(alloc, "show"), words)
}

/// What the command `store` finds in the words.
pub(crate) fn store_matches<'a>(
    alloc: Global,
    words: &'a [String],
) -> Result<ArgMatches<'a>, WordsError>
    ensures found { IfOk result (λ m. rows_of (found_of m) ≡ matches_of spec.store_app (map string_bytes words.entry.now)) }
    ensures refused { IfErr result (λ error. error ≡ Refused → takes spec.store_app (map string_bytes words.entry.now) ≡ true → ⊥) }
{
    let command = with_listening(alloc, Command::new(alloc, "store"))?;
    found(command, words)
}

/// What the command `check` finds in the words.
pub(crate) fn check_matches<'a>(
    alloc: Global,
    words: &'a [String],
) -> Result<ArgMatches<'a>, WordsError>
    ensures found { IfOk result (λ m. rows_of (found_of m) ≡ matches_of spec.check_app (map string_bytes words.entry.now)) }
    ensures refused { IfErr result (λ error. error ≡ Refused → takes spec.check_app (map string_bytes words.entry.now) ≡ true → ⊥) }
{
    let command = with_account(alloc, Command::new(alloc, "check"))?;
    found(command, words)
}
