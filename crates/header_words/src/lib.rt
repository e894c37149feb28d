//! What the octets of a mail spell: charsets, encoded words (RFC 2047) and transfer encodings (RFC 2045). And how a text
//! is written as encoded words.
#![tactic(auto)]

// Charsets and encodings.
pub mod base64_text;
pub mod charset;
pub mod quoted_printable;
pub mod quoted_text;
pub mod transfer;

// Encoded words.
pub mod encoded_word;
pub mod one_line;
pub mod word_list;
pub mod words;

// Laws.
pub mod laws;

pub use charset::decode_charset;
pub use encoded_word::Edges;
pub use one_line::as_one_line;
pub use transfer::{decode_transfer, transfer_len};
pub use word_list::encode_words;
pub use words::{decode_words, decode_words_between};
