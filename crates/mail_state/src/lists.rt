// The last touches of each type.
ghost use Rattle.std.specs.Prelude.{◌≡◌, ◌<◌, ◌^◌, IfOk, None, length};
ghost use Rattle.mail_state.specs.State.{first_lists};
ghost use Rattle.mail_state.specs.Following.{AllNoted, Noted, full_place, spent_place};
ghost use Rattle.mail_state.specs.reading.Noting.{AnswersSpent};

use crate::StateError;
use crate::touches::StepTouches;
use change_list::{ChangeList, Entry, MAX_PLACE};
use served_maps::note::note;
use std::alloc::{AllocError, Global};
use std::marker::Model;

/// The change lists of the three types.
#[derive(Drop)]
pub struct TypeLists {
    /// Of Mailboxes.
    pub mailbox: ChangeList,
    /// Of Emails.
    pub email: ChangeList,
    /// Of Threads.
    pub thread: ChangeList,
}

impl Model for TypeLists {
    ghost use Rattle.mail_state.specs.State.{ChangeLists};

    ghost Value = { ChangeLists };

    ghost view = { λ a. record { mailbox = a.mailbox; email = a.email; thread = a.thread } };
}

/// The place of the list, where these touches would pass the last one.
fn full_place(list: &ChangeList, touches: &[Entry]) -> Option<u64>
    requires { length touches.now < 2 ^ 63 }
    ensures { result ≡ full_place list.now touches.now }
{
    let place = list.place();
    if place + touches.len() as u64 > MAX_PLACE {
        Some(place)
    } else {
        None
    }
}

/// Notes touches for which there is room.
fn noted(list: ChangeList, touches: &[Entry]) -> ChangeList
    requires few { length touches.now < 2 ^ 63 }
    requires room { full_place list touches.now ≡ None }
    ensures { Noted list result touches.now }
{
    let mut list = list;
    note(&mut list, touches);
    list
}

impl TypeLists {
    /// Lists without touches, with the room for all that they ever keep.
    pub fn new(alloc: Global) -> Result<TypeLists, AllocError>
        ensures { IfOk result (λ l. l ≡ first_lists) }
    {
        let mailbox = ChangeList::new(alloc)?;
        let email = ChangeList::new(alloc)?;
        let thread = ChangeList::new(alloc)?;
        Ok(TypeLists {
            mailbox,
            email,
            thread,
        })
    }

    /// The place of the first type that has no room for its touches.
    fn spent_place(&self, touches: &StepTouches) -> Option<u64>
        ensures { result ≡ spent_place self.now touches.now }
    {
        if let Some(place) = full_place(&self.mailbox, touches.mailbox.as_slice()) {
            return Some(place);
        }
        if let Some(place) = full_place(&self.email, touches.email.as_slice()) {
            return Some(place);
        }
        full_place(&self.thread, touches.thread.as_slice())
    }

    /// Notes the touches of each type, unless a place would pass the last one. It takes no memory.
    pub fn noting(self, touches: &StepTouches) -> Result<TypeLists, StateError>
        ensures noted { IfOk result (λ l. AllNoted self l touches.now) }
        ensures spent { AnswersSpent result (spent_place self touches.now) }
    {
        if let Some(place) = self.spent_place(touches) {
            return Err(StateError::Spent { place });
        }
        let TypeLists {
            mailbox,
            email,
            thread,
        } = self;
        Ok(TypeLists {
            mailbox: noted(mailbox, touches.mailbox.as_slice()),
            email: noted(email, touches.email.as_slice()),
            thread: noted(thread, touches.thread.as_slice()),
        })
    }
}
