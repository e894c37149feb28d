// Bodies of leaves, in base64 (RFC 2045 section 6.8).
ghost use Rattle.std.specs.Prelude.{◌≡◌, ◌++◌, ◌≤◌, length, IfOk, OnOk};
ghost use Rattle.base64.specs.Engines.{standard};
ghost use Rattle.base64.specs.GeneralPurpose.{encode_of};
ghost use Rattle.message_lines.specs.Bodies as bodies;
ghost use Rattle.message_lines.specs.Folding.{crlf};

use base64::engine::general_purpose::STANDARD;
use std::alloc::{AllocError, Global};

/// The octets that a line of 76 octets encodes.
const LINE_OCTETS: usize = 57;

/// The symbols of such a line.
const LINE_SYMBOLS: usize = 76;

/// How long octets are in base64, in lines.
pub(crate) fn base64_len(octets: &[u8]) -> u64
    ensures { result ≡ length (bodies.base64_lines octets.now) }
{
    let len = octets.len() as u64;
    let symbols = len.div_ceil(3) * 4;
    symbols + symbols.div_ceil(76) * 2
}

/// Adds octets in base64, and the end of their line.
fn push_line(text: &mut Vec<u8>, octets: &[u8]) -> Result<(), AllocError>
    requires { length octets.now ≤ LINE_OCTETS }
    ensures { OnOk result (text.new.items ≡ text.old.items ++ (encode_of standard octets.now ++ crlf)) }
{
    let mut line = [0u8; LINE_SYMBOLS];
    let Ok(len) = STANDARD.encode_slice(octets, &mut line) else {
        unreachable!();
    };
    text.extend_from_slice(&line[..len])?;
    text.extend_from_slice(b"\r\n")
}

/// Adds octets in base64, in lines.
pub(crate) fn push_base64(text: &mut Vec<u8>, octets: &[u8]) -> Result<(), AllocError>
    ensures { OnOk result (text.new.items ≡ text.old.items ++ bodies.base64_lines octets.now) }
{
    let mut rest = octets;
    while !rest.is_empty() {
        let (front, behind) = rest.split_at(rest.len().min(LINE_OCTETS));
        push_line(text, front)?;
        rest = behind;
    }
    Ok(())
}

/// The value of a text with CR LF at the end of each line.
#[tactic(auto, unfolding(crate::specs::Bodies::with_crlf))]
pub fn with_crlf(alloc: Global, value: &[u8]) -> Result<Vec<u8>, AllocError>
    ensures { IfOk result (λ v. v.items ≡ bodies.with_crlf value.now) }
{
    let mut text = Vec::new(alloc);
    let mut behind_cr = false;
    for octet in value {
        if *octet == b'\n' && !behind_cr {
            text.push(b'\r')?;
        }
        text.push(*octet)?;
        behind_cr = *octet == b'\r';
    }
    Ok(text)
}
