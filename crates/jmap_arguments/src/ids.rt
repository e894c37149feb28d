// Ids of Mailboxes, Emails and Threads.
ghost use Rattle.std.specs.Prelude.{◌≡◌, ◌≢◌, ◌<◌, ◌^◌, ℕ, IfOk, IfSome, None, string_bytes};
ghost use Rattle.serde_json.specs.View.{view};
ghost use Rattle.jmap_arguments.specs.Ids as spec;

use crate::state::decimal_number;
use serde_json::Value;
use std::alloc::{AllocError, Global};

/// What ids of Mailboxes begin with.
pub const MAILBOX_LETTER: char = 'm';

/// What ids of Emails begin with.
pub const EMAIL_LETTER: char = 'e';

/// What ids of Threads begin with.
pub const THREAD_LETTER: char = 't';

/// The letter and the number in decimal.
pub fn id_text(alloc: Global, letter: char, number: u64) -> Result<String, AllocError>
    requires { letter < 128 }
    ensures { IfOk result (λ text. string_bytes text ≡ spec.id_text letter number) }
{
    format!(in alloc; "{letter}{number}")
}

/// The id as a value.
pub fn id_value(alloc: Global, letter: char, number: u64) -> Result<Value, AllocError>
    requires { letter < 128 }
    ensures { IfOk result (λ value. view value ≡ spec.id_data letter number) }
{
    Ok(Value::String(id_text(alloc, letter, number)?))
}

/// The ids of these numbers.
pub fn id_list(alloc: Global, letter: char, numbers: &[u64]) -> Result<Value, AllocError>
    requires { letter < 128 }
    ensures { IfOk result (λ value. view value ≡ spec.id_list letter numbers.now) }
{
    let mut ids = Vec::with_capacity(alloc, numbers.len())?;
    for number in numbers {
        ids.push(id_value(alloc, letter, *number)?)?;
    }
    Ok(Value::Array(ids))
}

/// The number of which the text is the id. Takes no memory.
pub fn read_id(letter: char, text: &str) -> Option<u64>
    requires { letter < 128 }
    ensures some { IfSome result (λ n. text.now ≡ spec.id_text letter n) }
    ensures none { result ≡ None → (n : ℕ) → n < 2 ^ 64 → text.now ≢ spec.id_text letter n }
{
    let digits = text.strip_prefix(letter)?;
    decimal_number(digits)
}
