// The last address in angle brackets.
ghost use Rattle.std.specs.Prelude.{◌≡◌, ℕ, List, [], ◌∷◌, MatchOption};
ghost use Rattle.loose_addresses.specs.Angles as angles;
ghost use Rattle.loose_addresses.specs.reading.AngleSteps as reading;

use text_words::{Class, behind, cut};

/// All octets but angle brackets.
struct NoAngle;

impl Class<u8> for NoAngle {
    ghost test = { angles.is_no_angle };

    fn has(&self, item: &u8) -> bool {
        !(*item == b'<' || *item == b'>')
    }
}

/// What stands in a text up to its first angle bracket.
#[derive(Clone, Copy)]
struct Scan {
    /// Whether the first angle bracket is `>`.
    pub closes: bool,
    /// Whether an `@` stands before it.
    pub at: bool,
}

/// The same, where the octet stands before the text.
fn scan_before(scan: Scan, octet: u8) -> Scan
    ensures { (t : List ℕ) → reading.Tells scan t → reading.Tells result (octet ∷ t) }
{
    match octet {
        b'>' => Scan {
            closes: true,
            at: false,
        },
        b'<' => Scan {
            closes: false,
            at: false,
        },
        b'@' => Scan {
            closes: scan.closes,
            at: true,
        },
        _ => scan,
    }
}

/// Whether the octet opens angle brackets that the text behind it closes, with an `@` in them.
fn opens(scan: Scan, octet: u8) -> bool
    ensures { (t : List ℕ) → reading.Tells scan t → result ≡ reading.opens octet t }
{
    octet == b'<' && scan.closes && scan.at
}

/// Where the last angle brackets with an `@` in them open.
fn last_open(text: &[u8]) -> Option<usize>
    ensures { MatchOption result (angles.NoAngle text.now) (λ n. reading.OpensAt n text.now) }
{
    let mut scan = Scan {
        closes: false,
        at: false,
    };
    let mut at = text.len();
    while at > 0 {
        at -= 1;
        let octet = text[at];
        if opens(scan, octet) {
            return Some(at);
        }
        scan = scan_before(scan, octet);
    }
    None
}

/// What stands before the last angle brackets with an `@` in them, and in them.
pub(crate) fn last_angle(text: &[u8]) -> Option<(&[u8], &[u8])>
    ensures { MatchOption result (angles.NoAngle text.now) (λ r. (behind : List ℕ) × angles.IsLastAngle r.0.now r.1.now behind text.now) }
{
    let Some(at) = last_open(text) else {
        return None;
    };
    let (before, rest) = text.split_at(at);
    match behind(b'<', rest) {
        None => None,
        Some(inner) => Some((before, cut(&NoAngle, inner).0)),
    }
}
