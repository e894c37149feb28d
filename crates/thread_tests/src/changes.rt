// Answers of a change list, and its refusals.
use change_list::{ChangeList, Entry, Kind, MAX_PLACE};
use std::alloc::AllocError;
use test_rows::first_number;

/// The touch of a word: what is done to an id, and the id.
fn entry_of(word: &str) -> Entry {
    let (done, id) = word.split_once(':').unwrap_or((word, ""));
    let kind = match done {
        "added" => Kind::Added,
        "removed" => Kind::Removed,
        _ => Kind::Changed,
    };
    // A word that isn't known touches an id that no row has.
    let id = match done {
        "added" | "removed" | "changed" | "counted" => first_number(id).0,
        _ => 99,
    };
    Entry {
        id,
        kind,
        counts_only: done == "counted",
    }
}

/// Notes a touch.
pub(crate) fn touch(list: &mut ChangeList, entry: Entry) {
    if list.place() < MAX_PLACE {
        list.touch(entry);
    }
}

/// Notes the touch of each word.
fn touch_all(list: &mut ChangeList, words: &str) {
    for word in words.split_whitespace() {
        touch(list, entry_of(word));
    }
}

/// Does what a word says, and adds what comes of it.
pub(crate) fn take(
    list: &mut ChangeList,
    word: &str,
    text: &str,
    out: &mut String,
) -> Result<(), AllocError> {
    let (number, rest) = first_number(text);
    match word {
        "touch" => {
            for _ in 0..number {
                touch_all(list, rest);
            }
            Ok(())
        }
        "since" => write!(
            out,
            " -> {:?}",
            list.since(number, rest.parse::<u64>().ok())
        ),
        "touched" => write!(out, " -> {:?}", list.touched(number)),
        "holds" => write!(out, " -> {}", list.holds(number)),
        _ => write!(out, " -> {} to {}", list.front(), list.place()),
    }
}
