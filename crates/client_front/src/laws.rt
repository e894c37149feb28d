//! Laws of a front's states and times, as clauses of functions that do nothing.
ghost use Rattle.std.specs.Prelude.{◌<◌, ◌≡◌, ◌≢◌, ◌≤◌, ◌++◌, ◌∷◌, [], ℕ, List};
ghost use Rattle.client_front.specs.Accepting.{State, world};
ghost use Rattle.client_front.specs.Reached.{HasPlace, IsReached};
ghost use Rattle.client_front.specs.declared.acceptor.TheConstants.{LOOK_AGAIN_MILLISECONDS};
ghost use Rattle.client_streams.specs.Flushing.{IsFlushed, unflushed};
ghost use Rattle.client_streams.specs.declared.unflushed.TheConstants.{MAX_STEP_MILLISECONDS};
ghost use Rattle.client_streams.specs.declared.unflushed.Unflushed.{Unflushed};

use crate::clock::Ticks;
use crate::sockets::ClientListener;

/// Where some of its response is kept that the client which is served has not taken, there is a place for it: once its response ends it is
/// one of those that take what is left, and isn't closed, unless the clock fails.
pub fn kept_clients_have_a_place<L: ClientListener + Drop, C: Ticks + Drop>()
    ensures place { (front : State L C L.Stream) → IsReached (world L.Stream.shows L.Stream.closes L.Stream.gives L.Stream.takes L.Stream.ends C.reads L.waits L.comes) L.Stream.sends front
        → HasPlace front.leaving }
    ensures stays { (front : State L C L.Stream) (now : ℕ) (stream : L.Stream) (after : List (Unflushed L.Stream))
        → IsReached (world L.Stream.shows L.Stream.closes L.Stream.gives L.Stream.takes L.Stream.ends C.reads L.waits L.comes) L.Stream.sends front
        → front.leaving.kept.unsent ≢ [] → IsFlushed L.Stream.closes now stream front.leaving.kept front.leaving.flushing after
        → after ≡ front.leaving.flushing ++ unflushed now stream front.leaving.kept ∷ [] }
{}

/// All the time of a wait for clients counts for those that take what is left of their response, and no wait is over at once.
pub fn whole_waits_count()
    ensures whole { LOOK_AGAIN_MILLISECONDS ≤ MAX_STEP_MILLISECONDS }
    ensures waits { 0 < LOOK_AGAIN_MILLISECONDS }
{}
