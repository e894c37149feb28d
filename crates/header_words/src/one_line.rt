// Texts as one line without control characters.
ghost use Rattle.std.specs.Prelude.{◌≡◌, ◌==◌, ◌++◌, not, if◌then◌else◌, [], ◌∷◌, IfOk, OnOk};
ghost use Rattle.std.specs.List.{flat_map, list_any};
ghost use Rattle.text_words.specs.Octets.{is_white as is_white_octet};
ghost use Rattle.header_words.specs.OneLine as lines;

use crate::words::is_control;
use std::alloc::{AllocError, Global};
use text_words::{Class, White, cut, is_white};

/// All but white space.
struct Plain;

impl Class<u8> for Plain {
    ghost test = { λ c. not (is_white_octet c) };

    fn has(&self, item: &u8) -> bool {
        !is_white(*item)
    }
}

/// The text as one line without control characters: white space that has a line end is one space, a tab is a space,
/// other control characters are dropped. So a name is shown that RFC 5322 folds, or that has what no name may have.
pub fn as_one_line(alloc: Global, text: &[u8]) -> Result<Vec<u8>, AllocError>
    ensures { IfOk result (λ v. v.items ≡ lines.one_line text.now) }
{
    let mut line = Vec::new(alloc);
    let mut rest = text;
    while !rest.is_empty() {
        let (white, behind) = cut(&White, rest);
        push_white(&mut line, white)?;
        let (plain, more) = cut(&Plain, behind);
        push_octets(&mut line, plain)?;
        rest = more;
    }
    Ok(line)
}

/// Adds white space, which is one space where it has a line end.
fn push_white(line: &mut Vec<u8>, white: &[u8]) -> Result<(), AllocError>
    ensures { OnOk result (line.new.items ≡ line.old.items ++ (if list_any (λ c. c == 10) white.now then 32 ∷ [] else flat_map lines.line_octet white.now)) }
{
    if has_line_end(white) {
        line.push(b' ')?;
        return Ok(());
    }
    push_octets(line, white)
}

fn has_line_end(white: &[u8]) -> bool
    ensures { result ≡ list_any (λ c. c == 10) white.now }
{
    for octet in white {
        if *octet == b'\n' {
            return true;
        }
    }
    false
}

/// Adds octets, without control characters.
fn push_octets(line: &mut Vec<u8>, octets: &[u8]) -> Result<(), AllocError>
    ensures { OnOk result (line.new.items ≡ line.old.items ++ flat_map lines.line_octet octets.now) }
{
    for octet in octets {
        push_octet(line, *octet)?;
    }
    Ok(())
}

fn push_octet(line: &mut Vec<u8>, octet: u8) -> Result<(), AllocError>
    ensures { OnOk result (line.new.items ≡ line.old.items ++ lines.line_octet octet) }
{
    if octet == b'\n' || octet == b'\t' {
        line.push(b' ')?;
    } else if !is_control(octet) {
        line.push(octet)?;
    }
    Ok(())
}
