// Octets that end inside a request's target (RFC 9112 section 3).
ghost use Rattle.std.specs.Prelude.{◌≢◌, ◌↔◌, [], IsTrue};
ghost use Rattle.httparse.specs.Grammar.{EndsInTarget, is_token_byte, is_uri_byte};
ghost use Rattle.text_words.specs.Cuts.{Each};
ghost use Rattle.http_service.specs.reading.Targets.{IsAfterBlankLines};

use httparse::{is_method_token, is_uri_token};
use text_words::{Class, are_all, behind, cut, line_end_len};

/// The octets of a method.
struct MethodOctet;

impl Class<u8> for MethodOctet {
    ghost test = { is_token_byte };

    fn has(&self, item: &u8) -> bool {
        is_method_token(*item)
    }
}

/// The octets of a target.
struct TargetOctet;

impl Class<u8> for TargetOctet {
    ghost test = { is_uri_byte };

    fn has(&self, item: &u8) -> bool {
        is_uri_token(*item)
    }
}

// What follows the empty lines at the front.
fn after_blank_lines(octets: &[u8]) -> &[u8]
    ensures { IsAfterBlankLines octets.now result.now }
{
    let mut rest = octets;
    'lines: while line_end_len(rest) != 0 {
        let (_, more) = rest.split_at(line_end_len(rest));
        rest = more;
    }
    rest
}

fn begins_target(method: &[u8], target: &[u8]) -> bool
    ensures { IsTrue result ↔ ((method.now ≢ []) × Each is_uri_byte target.now) }
{
    !method.is_empty() && are_all(&TargetOctet, target)
}

/// Whether the octets end inside a target: empty lines, a method, a space, and octets of a target.
pub(crate) fn ends_in_target(octets: &[u8]) -> bool
    ensures { IsTrue result ↔ EndsInTarget octets.now }
{
    let (method, rest) = cut(&MethodOctet, after_blank_lines(octets));
    match behind(b' ', rest) {
        None => false,
        Some(target) => begins_target(method, target),
    }
}
