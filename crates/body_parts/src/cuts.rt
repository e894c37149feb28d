// Texts in UTF-8 that are cut between two characters, and not within a tag of HTML.
ghost use Rattle.std.specs.Prelude.{◌≡◌, ◌≤◌, ◌++◌, false, length, take, drop};
ghost use Rattle.body_parts.specs.Cuts as cuts;

use memchr::{memchr, memrchr};

/// The most octets of a tag that is left out where a text was cut within it.
pub const MAX_OPEN_TAG: usize = 1000;

/// Whether the octet stands within a character in UTF-8, after its first one.
pub(crate) fn is_inner(octet: u8) -> bool
    ensures { result ≡ cuts.is_continuation octet }
{
    128 <= octet && octet <= 191
}

/// The last place up to the one given at which no character is cut: the front of the text up to it is the longest run of whole characters with
/// no more octets than the place given.
fn whole_characters(text: &[u8], most: usize) -> usize
    ensures within { result ≤ length text.now }
    ensures cut { cuts.IsCut most text.now (take result text.now) }
{
    if text.len() <= most {
        return text.len();
    }
    let mut at = most;
    while at > 0 && is_inner(text[at]) {
        at -= 1;
    }
    at
}

/// Where the text goes on behind its last `>`.
fn after_last_close(text: &[u8]) -> usize
    ensures within { result ≤ length text.now }
    ensures place { cuts.before_open_tag text.now ≡ take result text.now ++ cuts.before_open_tag (drop result text.now) }
    ensures none { cuts.has_close (drop result text.now) ≡ false }
{
    match memrchr(b'>', text) {
        None => 0,
        Some(at) => at + 1,
    }
}

/// Where the first `<` stands behind which no `>` does, or the end of the text.
fn open_tag(text: &[u8]) -> usize
    ensures within { result ≤ length text.now }
    ensures place { take result text.now ≡ cuts.before_open_tag text.now }
{
    let closed = after_last_close(text);
    let (_, rest) = text.split_at(closed);
    match memchr(b'<', rest) {
        None => text.len(),
        Some(at) => closed + at,
    }
}

/// Where the text ends without the tag that it would end in: before the first `<` of its last `MAX_OPEN_TAG` octets behind
/// which no `>` stands.
fn outside_tag(text: &[u8]) -> usize
    ensures within { result ≤ length text.now }
    ensures place { take result text.now ≡ cuts.outside_tag text.now }
{
    let far = text.len().saturating_sub(MAX_OPEN_TAG);
    let (_, near) = text.split_at(far);
    far + open_tag(near)
}

/// Where the longest front of at most that many octets ends; where octets of HTML are cut, it doesn't end within a tag.
fn shortened(text: &[u8], most: usize, html: bool) -> usize
    ensures within { result ≤ length text.now }
    ensures front { cuts.IsShortened html most text.now (take result text.now) }
{
    let whole = whole_characters(text, most);
    if html && whole < text.len() {
        return outside_tag(&text[..whole]);
    }
    whole
}

/// At most that many octets of the text, in whole characters and, of HTML, not to within a tag, where 0 is no bound; and whether octets
/// were cut.
pub(crate) fn bounded(text: Vec<u8>, most: u64, html: bool) -> (Vec<u8>, bool)
    ensures { cuts.IsBounded html most text.items result.0.items result.1 }
{
    if most == 0 {
        return (text, false);
    }
    let whole = text.len();
    let kept = shortened(text.as_slice(), most as usize, html);
    let mut front = text;
    front.truncate(kept);
    (front, kept < whole)
}
