// Texts that many parts have.
ghost use Rattle.std.specs.Prelude.{IfOk};
ghost use Rattle.mime_tree.specs.reading.Shared.{AreShared};

use octets::Bytes;
use std::alloc::{AllocError, Global};

/// Texts that many parts of a tree have. The parts share them, so that a part without a header takes no memory for
/// its texts.
#[derive(Drop)]
pub(crate) struct SharedTexts {
    pub text_plain: Bytes,
    pub message_rfc822: Bytes,
    pub us_ascii: Bytes,
    pub seven_bit: Bytes,
}

#[tactic(auto, unfolding(crate::specs::Heads::text_plain, crate::specs::Heads::message_rfc822, crate::specs::Heads::us_ascii, crate::specs::Heads::seven_bit))]
pub(crate) fn shared_texts(alloc: Global) -> Result<SharedTexts, AllocError>
    ensures { IfOk result AreShared }
{
    Ok(SharedTexts {
        text_plain: Bytes::copy_of(alloc, b"text/plain")?,
        message_rfc822: Bytes::copy_of(alloc, b"message/rfc822")?,
        us_ascii: Bytes::copy_of(alloc, b"us-ascii")?,
        seven_bit: Bytes::copy_of(alloc, b"7bit")?,
    })
}
