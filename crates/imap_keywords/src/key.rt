// Words by which a reader decides.
/// A word by which a reader decides.
#[derive(Clone, Copy)]
pub enum Key {
    /// A status, with a tag or without (RFC 9051 section 7.1); `No` and `Bad` likewise.
    Ok,
    /// The command is refused.
    No,
    /// The command isn't understood.
    Bad,
    /// A greeting; only without a tag (RFC 9051 section 7.1.4).
    Preauth,
    /// The store closes the link; only without a tag (RFC 9051 section 7.1.5).
    Bye,
    /// Words follow (RFC 9051 section 7.2.2).
    Capability,
    /// Words follow (RFC 9051 section 7.2.1).
    Enabled,
    /// A set of UIDs follows (RFC 7162 section 3.2.10).
    Vanished,
    /// A folder follows (RFC 9051 section 7.3.1).
    List,
    /// A folder's name and its counts follow (RFC 9051 section 7.3.3).
    Status,
    /// After the number of messages (RFC 9051 section 7.4.1).
    Exists,
    /// After a sequence number (RFC 9051 section 7.5.1).
    Expunge,
    /// After a sequence number; items follow (RFC 9051 section 7.5.2).
    Fetch,
    /// An item: a number that isn't 0.
    Uid,
    /// An item, or the first word of a line (RFC 9051 section 7.3.5): names in brackets.
    Flags,
    /// An item: a long number in brackets (RFC 7162 section 3.1.4.2).
    ModSeq,
    /// An item: a date in quotes.
    InternalDate,
    /// `rfc822.size`, an item: a long number.
    Size,
    /// `body[header]`, an item: a string.
    Header,
    /// `body[header]<0>`, the item that answers a fetch of the header's first octets.
    HeaderPart,
    /// `body[]`, an item: a string.
    Body,
    /// `body[]<0>`, the item that answers a fetch of the message's first octets.
    BodyPart,
    /// Month 1.
    Jan,
    /// Month 2.
    Feb,
    /// Month 3.
    Mar,
    /// Month 4.
    Apr,
    /// Month 5.
    May,
    /// Month 6.
    Jun,
    /// Month 7.
    Jul,
    /// Month 8.
    Aug,
    /// Month 9.
    Sep,
    /// Month 10.
    Oct,
    /// Month 11.
    Nov,
    /// Month 12.
    Dec,
}

/// Where a word is read.
#[derive(Clone, Copy)]
pub enum WordPlace {
    /// After a tag.
    Tagged,
    /// After `* `.
    Plain,
    /// After `* `, a number and a space.
    Numbered,
    /// An item's name.
    Item,
    /// The month of a date.
    Month,
}

ghost use Rattle.std.specs.Prelude.{◌≡◌, ◌≤◌, length, take, bytes_eq, find};
ghost use Rattle.imap_keywords.specs.Keys as keywords;

use crate::class::{is_atom, is_word};

/// The word in lower case.
pub fn key_text(key: Key) -> &'static [u8]
    ensures { result.now ≡ keywords.key_text key }
{
    match key {
        Key::Ok => b"ok",
        Key::No => b"no",
        Key::Bad => b"bad",
        Key::Preauth => b"preauth",
        Key::Bye => b"bye",
        Key::Capability => b"capability",
        Key::Enabled => b"enabled",
        Key::Vanished => b"vanished",
        Key::List => b"list",
        Key::Status => b"status",
        Key::Exists => b"exists",
        Key::Expunge => b"expunge",
        Key::Fetch => b"fetch",
        Key::Uid => b"uid",
        Key::Flags => b"flags",
        Key::ModSeq => b"modseq",
        Key::InternalDate => b"internaldate",
        Key::Size => b"rfc822.size",
        Key::Header => b"body[header]",
        Key::HeaderPart => b"body[header]<0>",
        Key::Body => b"body[]",
        Key::BodyPart => b"body[]<0>",
        Key::Jan => b"jan",
        Key::Feb => b"feb",
        Key::Mar => b"mar",
        Key::Apr => b"apr",
        Key::May => b"may",
        Key::Jun => b"jun",
        Key::Jul => b"jul",
        Key::Aug => b"aug",
        Key::Sep => b"sep",
        Key::Oct => b"oct",
        Key::Nov => b"nov",
        Key::Dec => b"dec",
    }
}

static TAGGED_KEYS: [Key; 3] = [Key::Ok, Key::No, Key::Bad];

static LINE_KEYS: [Key; 11] = [
    Key::Ok,
    Key::No,
    Key::Bad,
    Key::Preauth,
    Key::Bye,
    Key::Capability,
    Key::Enabled,
    Key::Flags,
    Key::Vanished,
    Key::List,
    Key::Status,
];

static NUMBERED_KEYS: [Key; 3] = [Key::Exists, Key::Expunge, Key::Fetch];

static ITEM_KEYS: [Key; 9] = [
    Key::Uid,
    Key::Flags,
    Key::ModSeq,
    Key::InternalDate,
    Key::Size,
    Key::Header,
    Key::HeaderPart,
    Key::Body,
    Key::BodyPart,
];

static MONTH_KEYS: [Key; 12] = [
    Key::Jan,
    Key::Feb,
    Key::Mar,
    Key::Apr,
    Key::May,
    Key::Jun,
    Key::Jul,
    Key::Aug,
    Key::Sep,
    Key::Oct,
    Key::Nov,
    Key::Dec,
];

/// The words that count in a place.
pub fn keys(place: WordPlace) -> &'static [Key]
    ensures { result.now ≡ keywords.keys place }
{
    match place {
        WordPlace::Tagged => &TAGGED_KEYS,
        WordPlace::Plain => &LINE_KEYS,
        WordPlace::Numbered => &NUMBERED_KEYS,
        WordPlace::Item => &ITEM_KEYS,
        WordPlace::Month => &MONTH_KEYS,
    }
}

/// The key from which a place's words are read.
pub fn first_key(place: WordPlace) -> Key
    ensures { result ≡ keywords.first_key place }
{
    match place {
        WordPlace::Item => Key::Uid,
        WordPlace::Numbered => Key::Exists,
        WordPlace::Month => Key::Jan,
        _ => Key::Ok,
    }
}

/// Whether the octet may stand in a word of the place.
pub fn in_word(place: WordPlace, c: u16) -> bool
    ensures { result ≡ keywords.in_word place c }
{
    match place {
        WordPlace::Item => is_atom(c),
        WordPlace::Month => is_atom(c) && c != b'-' as u16,
        _ => is_word(c),
    }
}

fn begin_alike(a: &[u8], b: &[u8], at: usize) -> bool
    requires a { at ≤ length a.now }
    requires b { at ≤ length b.now }
    ensures { result ≡ bytes_eq (take at a.now) (take at b.now) }
{
    let (front, _) = a.split_at(at);
    let (other, _) = b.split_at(at);
    front == other
}

fn goes_on(key: Key, at: u8, c: u16, candidate: Key) -> bool
    requires { at ≤ length (keywords.key_text key) }
    ensures { result ≡ keywords.goes_on key at c candidate }
{
    let text = key_text(candidate);
    let at = at as usize;
    if at < text.len() && text[at] as u16 == c {
        begin_alike(text, key_text(key), at)
    } else {
        false
    }
}

/// Whether the key itself goes on with the octet.
#[tactic(auto, using(crate::proofs::KeyLemmas::selves))]
fn goes_on_itself(key: Key, at: usize, c: u16) -> bool
    ensures { result ≡ keywords.goes_on key at c key }
{
    let text = key_text(key);
    at < text.len() && text[at] as u16 == c
}

/// The first of the keys that begins as this one does up to `at` and goes on with the octet.
fn first_that_goes_on(candidates: &[Key], key: Key, at: u8, c: u16) -> Option<Key>
    requires { at ≤ length (keywords.key_text key) }
    ensures { result ≡ find (keywords.goes_on key at c) candidates.now }
{
    for candidate in candidates {
        if goes_on(key, at, c, *candidate) {
            return Some(*candidate);
        }
    }
    None
}

/// The key that begins as this one does up to `at` and goes on with the octet: this one, where it does.
pub fn next_key(place: WordPlace, key: Key, at: u8, c: u16) -> Option<Key>
    requires { at ≤ length (keywords.key_text key) }
    ensures { result ≡ keywords.next_key place key at c }
{
    if goes_on_itself(key, at as usize, c) {
        Some(key)
    } else {
        first_that_goes_on(keys(place), key, at, c)
    }
}

fn is_whole(key: Key, at: u8, candidate: Key) -> bool
    requires { at ≤ length (keywords.key_text key) }
    ensures { result ≡ keywords.is_whole key at candidate }
{
    let text = key_text(candidate);
    let at = at as usize;
    if text.len() == at {
        begin_alike(text, key_text(key), at)
    } else {
        false
    }
}

/// Whether the key itself is the word so far.
#[tactic(auto, using(crate::proofs::KeyLemmas::selves))]
fn is_whole_itself(key: Key, at: u8) -> bool
    ensures { result ≡ keywords.is_whole key at key }
{
    key_text(key).len() == at as usize
}

/// The first of the keys that is the word so far.
fn first_that_is_whole(candidates: &[Key], key: Key, at: u8) -> Option<Key>
    requires { at ≤ length (keywords.key_text key) }
    ensures { result ≡ find (keywords.is_whole key at) candidates.now }
{
    for candidate in candidates {
        if is_whole(key, at, *candidate) {
            return Some(*candidate);
        }
    }
    None
}

/// The key that is the word so far: this one, where it is.
pub fn whole_key(place: WordPlace, key: Key, at: u8) -> Option<Key>
    requires { at ≤ length (keywords.key_text key) }
    ensures { result ≡ keywords.whole_key place key at }
{
    if is_whole_itself(key, at) {
        Some(key)
    } else {
        first_that_is_whole(keys(place), key, at)
    }
}
