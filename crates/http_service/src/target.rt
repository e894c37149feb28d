// A request's target (RFC 9112 section 3.2).
ghost use Rattle.std.specs.Prelude.{◌≡◌, ◌↔◌, IsTrue, drop};
ghost use Rattle.std.specs.Option.{option_copied};
ghost use Rattle.http_service.specs.Heads.{BeginsWithLetter, IsPathAndQuery, IsTarget, is_authority_octet, is_path_octet, is_scheme_octet};
ghost use Rattle.http_service.specs.reading.Targets.{IsAfterScheme};

use text_words::{Class, cut, is_alpha, is_digit};

/// What stands between a scheme and an authority.
const AFTER_SCHEME: &[u8] = b"://";

/// The octets of a scheme (RFC 3986 section 3.1).
struct SchemeOctet;

impl Class<u8> for SchemeOctet {
    ghost test = { is_scheme_octet };

    fn has(&self, item: &u8) -> bool {
        is_alpha(*item) || is_digit(*item) || *item == b'+' || *item == b'-' || *item == b'.'
    }
}

/// The octets of an authority (RFC 3986 section 3.2).
struct AuthorityOctet;

impl Class<u8> for AuthorityOctet {
    ghost test = { is_authority_octet };

    fn has(&self, item: &u8) -> bool {
        !(*item == b'/' || *item == b'?' || *item == b'#')
    }
}

/// The octets of a path: all but `?`.
struct PathOctet;

impl Class<u8> for PathOctet {
    ghost test = { is_path_octet };

    fn has(&self, item: &u8) -> bool {
        *item != b'?'
    }
}

// What follows a scheme and `://`.
fn after_scheme(target: &[u8]) -> Option<&[u8]>
    ensures { IsAfterScheme target.now (option_copied result) }
{
    let (scheme, rest) = cut(&SchemeOctet, target);
    if !begins_with_letter(scheme) {
        return None;
    }
    if rest.len() < AFTER_SCHEME.len() {
        return None;
    }
    let (sign, rest) = rest.split_at(AFTER_SCHEME.len());
    if sign == AFTER_SCHEME {
        Some(rest)
    } else {
        None
    }
}

fn begins_with_letter(octets: &[u8]) -> bool
    ensures { IsTrue result ↔ BeginsWithLetter octets.now }
{
    match octets {
        [] => false,
        [first, ..] => is_alpha(*first),
    }
}

// The path and the query, without a scheme and an authority before them.
fn path_and_query(target: &[u8]) -> &[u8]
    ensures { IsPathAndQuery target.now result.now }
{
    match after_scheme(target) {
        None => target,
        Some(rest) => {
            let (_, rest) = cut(&AuthorityOctet, rest);
            rest
        }
    }
}

/// The path of a target, and its query.
pub(crate) fn split_target(target: &[u8]) -> (&[u8], &[u8])
    ensures { IsTarget target.now result.0.now result.1.now }
{
    let (path, rest) = cut(&PathOctet, path_and_query(target));
    match rest {
        [] => (path, rest),
        [_, query @ ..] => (path, query),
    }
}
