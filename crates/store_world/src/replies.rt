// What a store replies to octets.
ghost use Rattle.std.specs.Prelude.{◌≡◌, ◌++◌, List, ℕ, OnErr, OnOk};
ghost use Rattle.small_responses.specs.Tellable.{IsTellableMail};
ghost use Rattle.store_world.specs.Replies.{AnswersSome, Replies};

use crate::octet_queue::OctetQueue;
use crate::ready::Ready;
use std::alloc::{AllocError, Global};
use store_sessions::{CommandStore, Turn, take_turn};

/// Answers the commands that stand unread, one after another, and makes ready what is told of each. Where memory is wanting, some of them
/// are answered.
pub(crate) fn reply<S: CommandStore>(
    alloc: Global,
    store: &mut S,
    unread: &mut OctetQueue,
    ready: &mut Ready,
) -> Result<(), AllocError>
    requires mail { IsTellableMail (S.session store.old).mail }
    ensures ok { OnOk result ((told : List ℕ) × Replies (S.session store.old) unread.old told (S.session store.new) unread.new
        × (ready.new ≡ ready.old ++ told)) }
    ensures err { OnErr result (AnswersSome (S.session store.old) unread.old (S.session store.new)) }
{
    loop {
        let turn = take_turn(alloc, store, unread.as_slice())?;
        ready.add(turn.octets())?;
        unread.skip(turn.length());
        match turn {
            Turn::Answer { .. } => (),
            Turn::GoAhead | Turn::Wait | Turn::End => return Ok(()),
        }
    }
}
