// Clients, one after another.
ghost use Rattle.std.specs.Prelude.{◌≡◌, ◌⊎◌};
ghost use Rattle.gate_world.specs.Causes.{FrontAlone, Rose};
ghost use Rattle.gate_world.specs.Tape.{Adds};
ghost use Rattle.small_responses.specs.Tellable.{IsTellableMail};
ghost use Rattle.store_sessions.specs.Clients.{ServesAll};

use crate::command_store::CommandStore;
use crate::next::SessionError;
use crate::session::serve_client;
use gate_world::Front;
use std::alloc::Global;

/// Serves this many clients, or as many as come: 0, 6 where no client could be accepted, or 5 where memory ran out while one was
/// served. A session that a failing front breaks off doesn't keep the next client from being served.
pub fn serve_sessions<S: CommandStore, F: Front>(
    alloc: Global,
    store: &mut S,
    front: &mut F,
    most: u64,
) -> u8
    requires mail { IsTellableMail (S.session store.old).mail }
    ensures tape { Adds (F.tape front.old) (F.tape front.new) (ServesAll (S.session store.old) (S.session store.new) most (F.faults front.old).front (F.faults front.new).front result) }
    ensures mail { IsTellableMail (S.session store.new).mail }
    ensures statuses { (result ≡ 0) ⊎ (result ≡ 5) ⊎ (result ≡ 6) }
    ensures alone { FrontAlone (F.faults front.old) (F.faults front.new) }
    ensures front { result ≡ 6 → Rose (F.faults front.old).front (F.faults front.new).front }
    ensures hidden { F.hidden front.new ≡ F.hidden front.old }
{
    let mut count: u64 = 0;
    while count < most {
        match front.accept() {
            Err(_) => return 6,
            Ok(false) => return 0,
            Ok(true) => match serve_client(alloc, store, front) {
                Ok(()) => (),
                Err(SessionError::Failed) => (),
                Err(SessionError::Memory) => return 5,
            },
        }
        count += 1;
    }
    0
}
