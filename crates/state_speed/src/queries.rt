// Queries of Emails.
use mail_state::MailState;
use process_watch::Watch;
use query_changes::email_query_changes;
use query_core::email_query;
use serde_json::Value;
use std::alloc::Global;

/// How many items an array of an answer has.
fn count_in(answer: &Value, key: &str) -> usize {
    match answer.get(key) {
        Some(Value::Array(items)) => items.len(),
        _ => 0,
    }
}

/// How many ids an Email/query with these arguments answers; the answer is dropped.
fn ids_of(alloc: Global, state: &MailState, arguments: &Value) -> usize {
    match email_query(alloc, state, arguments) {
        Ok(answer) => count_in(&answer, "ids"),
        Err(_) => 0,
    }
}

/// How many ids an Email/queryChanges with these arguments adds; the answer is dropped.
fn added_of(alloc: Global, state: &MailState, arguments: &Value) -> usize {
    match email_query_changes(alloc, state, arguments) {
        Ok(answer) => count_in(&answer, "added"),
        Err(_) => 0,
    }
}

/// Says how long it takes from arguments to an answer, until that is dropped.
fn say_asked(rt: &HostRuntime, state: &MailState, word: &str, arguments: &Value) {
    let watch = Watch::start(rt);
    let count = match word {
        "query" => ids_of(rt.alloc(), state, arguments),
        _ => added_of(rt.alloc(), state, arguments),
    };
    watch.say(rt, word);
    let _said = println!(rt; "{count} ids");
}

/// Says what an Email/query or an Email/queryChanges takes, whose arguments are JSON.
pub fn say_query(rt: &HostRuntime, state: &MailState, word: &str, text: &str) {
    match Value::from_str(rt.alloc(), text) {
        Ok(arguments) => say_asked(rt, state, word, &arguments),
        Err(_) => {
            let _said = println!(rt; "no JSON");
        }
    }
}
