// The keys of the index: an id together with a base subject, in fixed room.
ghost use Rattle.std.specs.Prelude.{◌≡◌, ◌≤◌, ◌<◌, ◌++◌, length, map};
ghost use Rattle.std.specs.Char.{to_ascii_lowercase};
ghost use Rattle.std.specs.Hash.DefaultHasher as sip;
ghost use Rattle.thread_rule.specs.reading.Keys as keys;

use std::hash::{DefaultHasher, Hasher};

/// What SipHash-1-3 has read of a secret and of a base subject without regard to case.
pub type BaseHasher = DefaultHasher;

/// The SipHash-1-3 of a secret, a base subject and an id. Who doesn't know the secret can't choose ids whose keys are equal
/// or near. What is found at a key is compared with the id and the base subject before it counts, so two ids with one key
/// change no answer.
pub type Key = u64;

/// How many octets of a text are in lower case at once.
const PIECE_OCTETS: usize = 64;

/// Feeds as many octets as are in lower case at once, or fewer.
fn feed_piece(hasher: &mut DefaultHasher, piece: &[u8])
    requires { length piece.now ≤ PIECE_OCTETS }
    ensures { hasher.new ≡ sip.write hasher.old (map to_ascii_lowercase piece.now) }
{
    let mut octets = [0; PIECE_OCTETS];
    let lower = &mut octets[..piece.len()];
    lower.copy_from_slice(piece);
    lower.make_ascii_lowercase();
    hasher.write(&*lower);
}

/// As many octets of a text as are in lower case at once, or all where it has fewer, and those behind them.
fn next_piece(text: &[u8]) -> (&[u8], &[u8])
    ensures whole { text.now ≡ result.0.now ++ result.1.now }
    ensures short { length result.0.now ≤ PIECE_OCTETS }
    ensures less { 0 < length text.now → length result.1.now < length text.now }
{
    if text.len() <= PIECE_OCTETS {
        (text, &[])
    } else {
        text.split_at(PIECE_OCTETS)
    }
}

/// Feeds the text in lower case.
fn feed_lower(hasher: &mut DefaultHasher, text: &[u8])
    ensures { hasher.new ≡ sip.write hasher.old (map to_ascii_lowercase text.now) }
{
    let mut rest = text;
    while !rest.is_empty() {
        let (piece, more) = next_piece(rest);
        feed_piece(hasher, piece);
        rest = more;
    }
}

/// The hasher of the ids under a base subject, the same for all that differ in the case of their letters alone. It takes no
/// memory.
pub fn base_hasher(secret: u64, base: &[u8]) -> BaseHasher
    ensures { result ≡ keys.base_hasher secret base.now }
{
    let mut hasher = DefaultHasher::new();
    let octets = base.len() as u64;
    hasher.write(&secret.to_le_bytes());
    hasher.write(&octets.to_le_bytes());
    feed_lower(&mut hasher, base);
    hasher
}

/// The key of an id under the base subject of this hasher. It takes no memory.
pub fn key_under(base: &BaseHasher, id: &[u8]) -> Key
    ensures { result ≡ keys.key_under base.now id.now }
{
    let mut hasher = *base;
    hasher.write(id);
    hasher.finish()
}
