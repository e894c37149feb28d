// The whole message of a draft.
ghost use Rattle.std.specs.Prelude.{◌≡◌, ◌≤◌, length, IfOk, IfErr};
ghost use Rattle.message_texts.specs.Messages as messages;

use crate::fields::push_draft_fields;
use crate::parts::push_part;
use mail_drafts::{BuildError, Draft};
use message_lines::{Outline, push_field};
use octets::Bytes;
use std::alloc::{AllocError, Global};

/// The most octets of a message that is written.
pub const MAX_MESSAGE_OCTETS: u64 = 50_000_000;

/// The message of a draft, of which the leaves aren't encoded yet.
fn outline_of(alloc: Global, draft: &Draft, now: i64, word: u64) -> Result<Outline, AllocError>
    ensures { IfOk result (messages.IsMessageText draft.now now word) }
{
    let mut text = Outline::new(alloc);
    push_draft_fields(alloc, &mut text, draft, now, word)?;
    push_field(&mut text, "MIME-Version", b"1.0")?;
    push_part(alloc, &mut text, draft)?;
    Ok(text)
}

/// The message of a draft, as of the second `now` since 1970-01-01T00:00:00Z, with an id of the word where the draft has none. How
/// long it is is known before a leaf is encoded, so that a draft which lists the same octets again and again costs no more than
/// its list.
pub fn build(alloc: Global, draft: &Draft, now: i64, word: u64) -> Result<Bytes, BuildError>
    ensures message { IfOk result (messages.IsMessageText draft.now now word) }
    ensures fits { IfOk result (λ b. length b ≤ MAX_MESSAGE_OCTETS) }
    ensures refused { IfErr result (messages.IsBuildFailure MAX_MESSAGE_OCTETS draft.now now word) }
{
    let outline = outline_of(alloc, draft, now, word)?;
    let size = outline.len();
    if size > MAX_MESSAGE_OCTETS {
        return Err(BuildError::TooLarge { size });
    }
    let text = outline.encode(alloc, size as usize)?;
    Ok(Bytes::from_vec(text)?)
}
