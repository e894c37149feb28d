//! General words on lists of octets: cuts at the first element that fails a test, texts that are units one after
//! another, classes of octets and ends of lines. Grammars over octets are stated in them.
#![tactic(auto)]

pub mod class;
pub mod classes;
pub mod line_ends;
pub mod parts;
#[cfg(test)]
mod tests;

pub use class::{Class, are_all, cut};
pub use classes::{
    Alpha, Blank, Digit, White, hex_value, is_alpha, is_blank, is_digit, is_white, same_text,
};
pub use line_ends::{begins_with_lf, line_end_len};
pub use parts::{behind, first, run_before};
