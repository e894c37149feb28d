// Scripts that are written down as words.
use scripted_world::Script;
use std::alloc::{AllocError, Global};

/// The script with what a word on its batches and on the calls that fail adds to it.
fn with_kept_word(script: Script, name: &str, value: &str) -> Result<Script, AllocError> {
    let number = value.parse::<u64>().unwrap_or(0);
    match name {
        "batch" => script.with_batch(value.as_bytes()),
        "keeping" => script.failing_kept(number),
        "failing" => script.failing(number),
        "stop" => Ok(script.stopping_at(number)),
        // So that a word that isn't known shows.
        _ => Ok(script.stopping_at(1)),
    }
}

/// The script with what a word adds to it.
fn with_word(script: Script, word: &str) -> Result<Script, AllocError> {
    let (name, value) = word.split_once('=').unwrap_or((word, ""));
    let number = value.parse::<u64>().unwrap_or(0);
    match name {
        "link" => script.with_link(value.as_bytes()),
        "client" => script.with_client(value.as_bytes()),
        "moment" => script.with_moment(value.parse::<i64>().unwrap_or(0)),
        "word" => script.with_word(number),
        "piece" => Ok(script.in_pieces(number as usize)),
        "secrets" => {
            let (password, token) = value.split_once('/').unwrap_or((value, ""));
            script.with_secrets(password.as_bytes(), token.as_bytes())
        }
        _ => with_kept_word(script, name, value),
    }
}

/// The script with what each word adds to it, from first to last.
pub(crate) fn with_words(mut script: Script, words: &str) -> Result<Script, AllocError> {
    for word in words.split_whitespace() {
        script = with_word(script, word)?;
    }
    Ok(script)
}

/// The script of these words and then of those.
pub(crate) fn script_of(alloc: Global, given: &str, words: &str) -> Result<Script, AllocError> {
    let script = with_words(Script::new(alloc)?, given)?;
    with_words(script, words)
}
