// Sorts of the keys of Emails, as a program does them that does nothing else.
use mail_maps::EmailRow;
use mail_state::{MailState, MailType};
use process_watch::Watch;
use std::alloc::{AllocError, Global};

/// What senders are searched for, in small letters.
const WORD: &[u8] = b"dora";

/// The texts of an Email by which it's searched and sorted, and its date and number.
#[derive(Drop)]
struct Keys {
    /// The text of From.
    from: Vec<u8>,
    /// The base subject, in small letters.
    subject: Vec<u8>,
    /// When it came.
    received: i64,
    /// Its number.
    number: u64,
}

fn keys_of(alloc: Global, row: &EmailRow) -> Result<Keys, AllocError> {
    let from = match &row.envelope.from.text {
        Some(text) => text.as_slice().to_vec(alloc)?,
        None => Vec::new(alloc),
    };
    Ok(Keys {
        from,
        subject: row.envelope.base.as_slice().to_ascii_lowercase(alloc)?,
        received: row.received,
        number: row.number,
    })
}

/// The keys of all Emails, by number.
fn keys_of_all(alloc: Global, state: &MailState) -> Result<Vec<Keys>, AllocError> {
    let mut all = Vec::new(alloc);
    for number in &state.numbers(MailType::Email)? {
        if let Some(row) = state.email(*number) {
            all.push(keys_of(alloc, row)?)?;
        }
    }
    Ok(all)
}

/// Dates with numbers.
fn dates(alloc: Global, all: &[Keys]) -> Result<Vec<(i64, u64)>, AllocError> {
    let mut dates = Vec::with_capacity(alloc, all.len())?;
    for keys in all {
        dates.push((keys.received, keys.number))?;
    }
    Ok(dates)
}

/// Subjects with numbers.
fn subjects(alloc: Global, all: &[Keys]) -> Result<Vec<(&[u8], u64)>, AllocError> {
    let mut subjects = Vec::with_capacity(alloc, all.len())?;
    for keys in all {
        subjects.push((keys.subject.as_slice(), keys.number))?;
    }
    Ok(subjects)
}

/// Texts of From with numbers.
fn senders(alloc: Global, all: &[Keys]) -> Result<Vec<(&[u8], u64)>, AllocError> {
    let mut senders = Vec::with_capacity(alloc, all.len())?;
    for keys in all {
        senders.push((keys.from.as_slice(), keys.number))?;
    }
    Ok(senders)
}

/// Whether the word stands in a text.
fn has_word(text: &[u8]) -> bool {
    text.windows(4).any(|part| part.eq_ignore_ascii_case(WORD))
}

/// Sorts a copy of dates with numbers: how many there are.
fn sort_dates(alloc: Global, dates: &[(i64, u64)]) -> Result<usize, AllocError> {
    let mut sorted = dates.to_vec(alloc)?;
    sorted.sort_unstable();
    Ok(sorted.len())
}

/// The same of texts with numbers.
fn sort_texts(alloc: Global, texts: &[(&[u8], u64)]) -> Result<usize, AllocError> {
    let mut sorted = texts.to_vec(alloc)?;
    sorted.sort_unstable();
    Ok(sorted.len())
}

/// Searches the texts of From, and sorts the dates with numbers of those that have the word: how many do.
fn search_and_sort(alloc: Global, all: &[Keys]) -> Result<usize, AllocError> {
    let mut found = Vec::new(alloc);
    for keys in all {
        if has_word(keys.from.as_slice()) {
            found.push((keys.received, keys.number))?;
        }
    }
    found.sort_unstable();
    Ok(found.len())
}

fn say_count(rt: &HostRuntime, count: usize) {
    let _said = println!(rt; "{count} items");
}

fn say_dates(rt: &HostRuntime, all: &[Keys]) -> Result<(), AllocError> {
    let dates = dates(rt.alloc(), all)?;
    let watch = Watch::start(rt);
    let count = sort_dates(rt.alloc(), &dates)?;
    watch.say(rt, "sort of dates");
    say_count(rt, count);
    Ok(())
}

fn say_texts(rt: &HostRuntime, texts: &[(&[u8], u64)], what: &str) -> Result<(), AllocError> {
    let watch = Watch::start(rt);
    let count = sort_texts(rt.alloc(), texts)?;
    watch.say(rt, what);
    say_count(rt, count);
    Ok(())
}

fn say_subjects(rt: &HostRuntime, all: &[Keys]) -> Result<(), AllocError> {
    let texts = subjects(rt.alloc(), all)?;
    say_texts(rt, &texts, "sort of subjects")
}

fn say_senders(rt: &HostRuntime, all: &[Keys]) -> Result<(), AllocError> {
    let texts = senders(rt.alloc(), all)?;
    say_texts(rt, &texts, "sort of senders")
}

fn say_search(rt: &HostRuntime, all: &[Keys]) -> Result<(), AllocError> {
    let watch = Watch::start(rt);
    let count = search_and_sort(rt.alloc(), all)?;
    watch.say(rt, "search of senders and sort of their dates");
    say_count(rt, count);
    Ok(())
}

/// Says how long a sort of all Emails' keys takes: of dates, of subjects, of senders, or of the dates that a search of senders finds.
pub fn say_sort(rt: &HostRuntime, state: &MailState, what: &str) -> Result<(), AllocError> {
    let all = keys_of_all(rt.alloc(), state)?;
    match what {
        "dates" => say_dates(rt, &all),
        "subjects" => say_subjects(rt, &all),
        "senders" => say_senders(rt, &all),
        _ => say_search(rt, &all),
    }
}
