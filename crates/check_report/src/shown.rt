// Names as they are shown: no octet of them writes to a terminal what it likes.
ghost use Rattle.std.specs.Prelude.{◌≡◌, ◌++◌, ◌<◌, OnOk, IfOk};
ghost use Rattle.std.specs.List.{flat_map};
ghost use Rattle.check_report.specs.Shown as texts;

use std::alloc::{AllocError, Global};

fn is_plain(octet: u8) -> bool
    ensures { result ≡ texts.is_plain octet }
{
    31 < octet && octet < 127 && octet != b'\\'
}

fn hex_digit(value: u8) -> u8
    requires { value < 16 }
    ensures { result ≡ texts.hex_digit value }
{
    if value < 10 {
        b'0' + value
    } else {
        b'A' + (value - 10)
    }
}

fn put_octet(out: &mut Vec<u8>, octet: u8) -> Result<(), AllocError>
    ensures { OnOk result (out.new.items ≡ out.old.items ++ texts.shown_octet octet) }
{
    if is_plain(octet) {
        out.push(octet)?;
        return Ok(());
    }
    out.extend_from_slice(&[b'\\', b'x', hex_digit(octet / 16), hex_digit(octet % 16)])?;
    Ok(())
}

/// The octets as they are shown.
pub fn shown(alloc: Global, octets: &[u8]) -> Result<Vec<u8>, AllocError>
    ensures { IfOk result (λ text. text.items ≡ texts.shown octets.now) }
{
    let mut out = Vec::new(alloc);
    for octet in octets {
        put_octet(&mut out, *octet)?;
    }
    Ok(out)
}
