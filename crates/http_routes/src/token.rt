// Whether a token is the gateway's.
ghost use Rattle.std.specs.Prelude.{◌≡◌, ◌<◌, ◌↔◌, length, IsTrue};

/// What was found to differ so far, with a pair of octets more.
fn merged(difference: u8, one: u8, other: u8) -> u8
    ensures zero { result ≡ 0 → (difference ≡ 0) × (one ≡ other) }
    ensures same { difference ≡ 0 → one ≡ other → result ≡ 0 }
{
    difference | (one ^ other)
}

/// Whether texts of one length are the same, found without an early end: each pair of octets is compared, whatever the
/// others are.
fn are_same(one: &[u8], other: &[u8]) -> bool
    requires { length one.now ≡ length other.now }
    ensures { IsTrue result ↔ (one.now ≡ other.now) }
{
    let mut difference = 0;
    for at in 0..one.len() {
        difference = merged(difference, one[at], other[at]);
    }
    difference == 0
}

/// Whether what a client sent is the gateway's token. An empty token is nobody's. The time that it takes depends on the
/// lengths alone.
pub fn is_token(sent: &[u8], token: &[u8]) -> bool
    ensures { IsTrue result ↔ ((sent.now ≡ token.now) × (0 < length token.now)) }
{
    if token.is_empty() || sent.len() != token.len() {
        return false;
    }
    are_same(sent, token)
}
