// A count in braces that stands at the end of a text.
ghost use Rattle.std.specs.Prelude.{◌≡◌, IsTrue};
ghost use Rattle.imap_keywords.specs.Counts as counts;
ghost use Rattle.imap_keywords.specs.Counts.{PendFits};

use crate::class::is_digit;

/// Octets of a literal.
pub const MAX_LITERAL_OCTETS: u32 = 50_000_000;

/// Digits of a literal's count.
pub const COUNT_DIGITS: u8 = 8;

/// A count in braces that may stand at the end of a text: none, one with n digits, one with its closing brace.
#[derive(Clone, Copy)]
pub enum Pending {
    /// The text ends in no such count.
    Nothing,
    /// After `{`: the value of the digits so far, `MAX_LITERAL_OCTETS + 1` where it is more than the limit, and how many
    /// they are.
    Open(u32, u8),
    /// After the closing brace: the value, as above.
    Closed(u32),
}

fn capped(v: u32) -> u32
    ensures { result ≡ counts.capped v }
{
    if v <= MAX_LITERAL_OCTETS {
        v
    } else {
        MAX_LITERAL_OCTETS + 1
    }
}

fn pend_on(pending: Pending, c: u16) -> Pending
    requires { IsTrue (PendFits pending) }
    ensures { result ≡ counts.pend_on pending c }
{
    match pending {
        Pending::Nothing => Pending::Nothing,
        Pending::Open(v, n) => {
            if is_digit(c) {
                if n < COUNT_DIGITS {
                    Pending::Open(capped(10 * v + (c - b'0' as u16) as u32), n + 1)
                } else {
                    Pending::Nothing
                }
            } else if c == b'}' as u16 && 0 < n {
                Pending::Closed(v)
            } else {
                Pending::Nothing
            }
        }
        Pending::Closed(_) => Pending::Nothing,
    }
}

/// The count after one octet more.
pub fn pend(pending: Pending, c: u16) -> Pending
    requires { IsTrue (PendFits pending) }
    ensures { result ≡ counts.pend pending c }
{
    if c == b'{' as u16 {
        Pending::Open(0, 0)
    } else {
        pend_on(pending, c)
    }
}
