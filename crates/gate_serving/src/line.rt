// Lines that a client is sent.
ghost use Rattle.std.specs.Prelude.{◌≡◌, ◌++◌, IfOk};
ghost use Rattle.gate_serving.specs.Answers.{line_end};

use octets::Bytes;
use std::alloc::AllocError;

/// The text and a line end.
pub fn with_line_end(text: Bytes) -> Result<Bytes, AllocError>
    ensures { IfOk result (λ line. line ≡ text ++ line_end) }
{
    let mut line = text.into_vec()?;
    line.reserve_exact(1)?;
    line.push(b'\n')?;
    Ok(Bytes::from_vec(line)?)
}
