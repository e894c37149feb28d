// What the system tells of this process.
use std::fs;

/// What the line of this name says in a text of the system; empty where there is none.
fn field<'a>(text: &'a str, name: &str) -> &'a str {
    for line in text.lines() {
        if let Some(rest) = line.strip_prefix(name) {
            return rest.trim();
        }
    }
    ""
}

/// The number that a text begins with, up to a space; 0 where it is none.
fn first_number(text: &str) -> u64 {
    match text.split(' ').next() {
        Some(word) => word.parse::<u64>().unwrap_or(0),
        None => 0,
    }
}

/// How many microseconds this process has had of a processor; 0 where the system doesn't tell it.
pub(crate) fn processor_micros(rt: &HostRuntime) -> u64 {
    match fs::read_to_string(rt, "/proc/self/schedstat") {
        Ok(text) => first_number(&text) / 1_000,
        Err(_) => 0,
    }
}

/// The octets of memory that this process has; 0 where the system doesn't tell it.
pub fn resident(rt: &HostRuntime) -> u64 {
    match fs::read_to_string(rt, "/proc/self/status") {
        Ok(status) => first_number(field(&status, "VmRSS:")).saturating_mul(1_024),
        Err(_) => 0,
    }
}

/// Says what was done, how long it took, and what memory there is. What can't be said isn't.
pub(crate) fn say_cost(rt: &HostRuntime, what: &str, taken: u128, processor: u64) {
    let Ok(status) = fs::read_to_string(rt, "/proc/self/status") else {
        return;
    };
    let now = field(&status, "VmRSS:");
    let peak = field(&status, "VmHWM:");
    let _said = println!(rt;
        "{what}: {taken} microseconds, {processor} of a processor; memory {now}, peak {peak}"
    );
}
