// Keywords of Emails (RFC 8621 section 4.1.1).
ghost use Rattle.std.specs.Prelude.{◌≡◌};
ghost use Rattle.std.specs.List.{list_all};
ghost use Rattle.jmap_values.specs.Keywords as keywords;

/// The most octets of a keyword.
const MAX_KEYWORD_OCTETS: usize = 255;

fn is_keyword_octet(octet: u8) -> bool
    ensures { result ≡ keywords.is_keyword_octet octet }
{
    match octet {
        b'(' | b')' | b'{' | b']' | b'%' | b'*' | b'"' | b'\\' => false,
        _ => b'!' <= octet && octet <= b'~',
    }
}

fn are_keyword_octets(octets: &[u8]) -> bool
    ensures { result ≡ list_all keywords.is_keyword_octet octets.now }
{
    octets.iter().all(|octet| is_keyword_octet(*octet))
}

/// Whether the octets are a keyword.
#[tactic(auto, unfolding(crate::specs::Keywords::is_keyword))]
pub fn is_keyword(octets: &[u8]) -> bool
    ensures { result ≡ keywords.is_keyword octets.now }
{
    !octets.is_empty() && octets.len() <= MAX_KEYWORD_OCTETS && are_keyword_octets(octets)
}
