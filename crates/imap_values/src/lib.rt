//! The values of a store's language at the front of octets: words, numbers, strings, flags, dates and sets of UIDs.
#![tactic(auto)]

// Octets at the front.
mod front_octets;
mod strings;

// Values.
mod date_times;
mod dates;
mod flags;
mod sets;

pub use date_times::date_in;
pub use dates::push_date;
pub use flags::flags_in;
pub use front_octets::{
    before, behind, digits_len, is_decimal, is_key, is_sequence, long_of, lower, name_len,
    number_of, octet_at, word_len,
};
pub use sets::{range_of, vanished_in, words_in};
pub use strings::{astring_in, atom_in, atom_len, literal_in, unquoted};
