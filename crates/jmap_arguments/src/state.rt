// States of types, and their texts.
ghost use Rattle.std.specs.Prelude.{◌≡◌, ◌≢◌, ◌<◌, ◌≤◌, ◌^◌, ◌++◌, ℕ, length, decimal, None, OnOk, IfOk, IfSome, string_bytes};
ghost use Rattle.std.specs.Str.{all_ascii_digits};
ghost use Rattle.jmap_arguments.specs.declared.state.State.{State as state};
ghost use Rattle.jmap_arguments.specs.State as spec;
ghost use Rattle.jmap_arguments.specs.reading.PlainDigits.{is_plain};

use std::alloc::{AllocError, Global};

const EPOCH_DIGITS: u32 = 16;

/// A state of a type (RFC 8620 section 5.1): the epoch, and the type's place in it.
#[derive(Clone, Copy, Debug, PartialEq, Eq)]
pub struct State {
    /// A random number, drawn as the epoch begins; 16 hexadecimal digits in the text.
    pub epoch: u64,
    /// How many touches of the type there were in the epoch; in decimal in the text.
    pub place: u64,
}

fn hex_digit(number: u64) -> char
    requires { number < 16 }
    ensures value { result ≡ spec.hex_digit number }
    ensures ascii { result < 128 }
{
    if number < 10 {
        char::from(b'0' + number as u8)
    } else {
        char::from(b'a' + (number - 10) as u8)
    }
}

/// Adds the number's last digits, `width` of them.
fn push_hex(text: &mut String, width: u32, number: u64) -> Result<(), AllocError>
    ensures { OnOk result (string_bytes text.new
        ≡ string_bytes text.old ++ spec.hex_text width number) }
{
    if width == 0 {
        return Ok(());
    }
    push_hex(text, width - 1, number / 16)?;
    text.push(hex_digit(number % 16))
}

/// The state's text: the epoch in 16 lower-case hexadecimal digits, `-`, and the place in decimal.
pub fn state_text(alloc: Global, state: State) -> Result<String, AllocError>
    ensures { IfOk result (λ text. string_bytes text ≡ spec.state_text state) }
{
    let mut text = String::new(alloc);
    push_hex(&mut text, EPOCH_DIGITS, state.epoch)?;
    write!(text, "-{}", state.place)?;
    Ok(text)
}

/// The number of a lower-case hexadecimal digit.
fn digit_value(octet: u8) -> Option<u64>
    ensures some { IfSome result (λ n. (n < 16) × (octet ≡ spec.hex_digit n)) }
    ensures none { result ≡ None → (n : ℕ) → n < 16 → octet ≢ spec.hex_digit n }
{
    match octet {
        b'0'..=b'9' => Some((octet - b'0') as u64),
        b'a'..=b'f' => Some((octet - b'a') as u64 + 10),
        _ => None,
    }
}

/// The least number that has these as its last hexadecimal digits.
fn hex_number(digits: &[u8]) -> Option<u64>
    requires { length digits.now ≤ 16 }
    ensures some { IfSome result (λ n. (n < 16 ^ length digits.now) × (digits.now ≡ spec.hex_text (length digits.now) n)) }
    ensures none { result ≡ None → (n : ℕ) → digits.now ≢ spec.hex_text (length digits.now) n }
{
    if digits.is_empty() {
        return Some(0);
    }
    let (front, last) = digits.split_at(digits.len() - 1);
    let number = hex_number(front)?;
    let digit = digit_value(last[0])?;
    Some(number * 16 + digit)
}

fn are_digits(octets: &[u8]) -> bool
    ensures { result ≡ all_ascii_digits octets.now }
{
    for octet in octets {
        if !octet.is_ascii_digit() {
            return false;
        }
    }
    true
}

/// Digits alone, and no zero before another one.
fn is_plain(octets: &[u8]) -> bool
    ensures { result ≡ is_plain octets.now }
{
    are_digits(octets) && (octets.len() <= 1 || octets[0] != b'0')
}

/// The number that a text is in decimal, without a sign and without zeros at its front.
pub(crate) fn decimal_number(text: &str) -> Option<u64>
    ensures some { IfSome result (λ n. text.now ≡ decimal n) }
    ensures none { result ≡ None → (n : ℕ) → n < 2 ^ 64 → text.now ≢ decimal n }
{
    if !is_plain(text.as_bytes()) {
        return None;
    }
    match text.parse::<u64>() {
        Ok(number) => Some(number),
        Err(_) => None,
    }
}

/// The one state that has the text, where one has. Takes no memory.
pub fn read_state(text: &str) -> Option<State>
    ensures some { IfSome result (λ read. text.now ≡ spec.state_text read) }
    ensures one { IfSome result (λ read. (of : state) → of.epoch < 2 ^ 64 → of.place < 2 ^ 64 → text.now ≡ spec.state_text of → of ≡ read) }
    ensures none { result ≡ None → (of : state) → of.place < 2 ^ 64 → text.now ≢ spec.state_text of }
{
    let (epoch, place) = text.split_once('-')?;
    if epoch.len() != EPOCH_DIGITS as usize {
        return None;
    }
    Some(State {
        epoch: hex_number(epoch.as_bytes())?,
        place: decimal_number(place)?,
    })
}

/// The place in this epoch whose state has the text, where one has. Takes no memory.
pub fn read_place(epoch: u64, text: &str) -> Option<u64>
    ensures one { IfSome result (λ place. (p : ℕ) → p < 2 ^ 64 → text.now ≡ spec.state_text (record { epoch = epoch; place = p }) → p ≡ place) }
    ensures some { IfSome result (λ place. text.now ≡ spec.state_text (record { epoch = epoch; place = place })) }
    ensures none { result ≡ None → (p : ℕ) → p < 2 ^ 64 → text.now ≢ spec.state_text (record { epoch = epoch; place = p }) }
{
    let named = read_state(text)?;
    if named.epoch == epoch {
        Some(named.place)
    } else {
        None
    }
}
