// The parts of the outside, each with what its calls add to the tape.
ghost use Rattle.std.specs.Prelude.{◌≡◌, ◌<◌, ◌≤◌, List, ℕ, [], ◌∷◌, Option, length, take, IfOk, OnOk, OnErr, Err, if◌then◌else◌};
ghost use Rattle.gate_world.specs.Causes.{Faults, Hidden, Rose, NoFault, LinkAlone, KeepAlone, FrontAlone, SayAlone};
ghost use Rattle.gate_world.specs.declared.event.Event.{Event};
ghost use Rattle.gate_world.specs.declared.event.Event.TheVariants.{Accepted, NoMore, ClientGave, ClientEnded, ClientTook, ClientDone, FrontFailed, Dialed, StoreGave, StoreTook, LinkEnded, Loaded, Kept, KeepFailed, LoadFailed, Clock, Word, Said, SayFailed};
ghost use Rattle.gate_world.specs.declared.outside.KeepError.TheVariants as keeping;
ghost use Rattle.gate_world.specs.Tape.{Adds, AddsOne, Just};
ghost use Rattle.gate_world.specs.Read.{given};

use octets::Bytes;

/// A call to the outside failed: the count of faults of its part rose.
#[derive(Clone, Copy, Debug, PartialEq, Eq)]
pub struct Failed;

/// Why kept batches aren't given.
#[derive(Clone, Copy, Debug, PartialEq, Eq)]
pub enum KeepError {
    /// The keeper failed: its count of faults rose.
    Failed,
    /// Out of memory: the keeper's count stays, and nothing is told.
    Memory,
}

/// What all parts of the outside have: a tape of events, counts of faults and secrets. Each is known to contracts alone.
pub trait Taped {
    /// The events so far, oldest first, where they are told. Once they are not told they never are again.
    ghost tape: { Self → Option (List Event) };

    /// How often each part has failed. No count falls; one that stands at 2^64 - 1 counts as one that rose.
    ghost faults: { Self → Faults };

    /// The store's password and the client's token, which no call changes.
    ghost hidden: { Self → Hidden };
}

/// The link to the store: one link life after another, each from a dial to its end.
pub trait Link: Taped {
    /// Begins a link life in place of the one that there may be, whose end the tape doesn't tell. It fails where the store isn't
    /// reached; no link life is there then.
    fn dial(&mut self) -> Result<(), Failed>
        ensures ok { OnOk result (AddsOne (Self.tape self.old) (Self.tape self.new) Dialed) }
        ensures err { OnErr result (AddsOne (Self.tape self.old) (Self.tape self.new) LinkEnded) }
        ensures alone { LinkAlone (Self.faults self.old) (Self.faults self.new) }
        ensures cause { OnErr result (Rose (Self.faults self.old).link (Self.faults self.new).link) }
        ensures hidden { Self.hidden self.new ≡ Self.hidden self.old };

    /// Waits for octets of the store, puts them at the front of `into`, and gives how many: at least 1, at most the length of
    /// `into`. It fails where the store has closed the link, where the wait is too long and where there is no link life; the
    /// link life has ended then.
    fn read(&mut self, into: &mut [u8]) -> Result<usize, Failed>
        requires { 0 < length into.old }
        ensures bound { IfOk result (λ n. (0 < n) × (n ≤ length into.new)) }
        ensures ok { IfOk result (λ n. AddsOne (Self.tape self.old) (Self.tape self.new) (StoreGave (take n into.new))) }
        ensures err { OnErr result (AddsOne (Self.tape self.old) (Self.tape self.new) LinkEnded) }
        ensures alone { LinkAlone (Self.faults self.old) (Self.faults self.new) }
        ensures cause { OnErr result (Rose (Self.faults self.old).link (Self.faults self.new).link) }
        ensures hidden { Self.hidden self.new ≡ Self.hidden self.old };

    /// Gives the store some of the octets, from their front, and says how many it took: at least 1. It fails where it took
    /// none, as where there is no link life; the link life has ended then.
    fn write(&mut self, from: &[u8]) -> Result<usize, Failed>
        requires { 0 < length from.now }
        ensures bound { IfOk result (λ n. (0 < n) × (n ≤ length from.now)) }
        ensures ok { IfOk result (λ n. AddsOne (Self.tape self.old) (Self.tape self.new) (StoreTook (take n from.now))) }
        ensures err { OnErr result (AddsOne (Self.tape self.old) (Self.tape self.new) LinkEnded) }
        ensures alone { LinkAlone (Self.faults self.old) (Self.faults self.new) }
        ensures cause { OnErr result (Rose (Self.faults self.old).link (Self.faults self.new).link) }
        ensures hidden { Self.hidden self.new ≡ Self.hidden self.old };

    /// Ends the link life. It can't fail.
    fn hang_up(&mut self)
        ensures tape { AddsOne (Self.tape self.old) (Self.tape self.new) LinkEnded }
        ensures cause { NoFault (Self.faults self.old) (Self.faults self.new) }
        ensures hidden { Self.hidden self.new ≡ Self.hidden self.old };
}

/// What outlasts the program: batches of octets, of which each is kept whole or not at all.
pub trait Keeper: Taped {
    /// The kept batches, in the order in which they were appended. It fails where they can't be read.
    fn load(&mut self) -> Result<Vec<Bytes>, KeepError>
        ensures ok { IfOk result (λ batches. AddsOne (Self.tape self.old) (Self.tape self.new) (Loaded batches.items)) }
        ensures failed { result ≡ Err keeping.Failed → AddsOne (Self.tape self.old) (Self.tape self.new) LoadFailed }
        ensures memory { result ≡ Err keeping.Memory → Adds (Self.tape self.old) (Self.tape self.new) (Just []) × NoFault (Self.faults self.old) (Self.faults self.new) }
        ensures alone { KeepAlone (Self.faults self.old) (Self.faults self.new) }
        ensures cause { result ≡ Err keeping.Failed → Rose (Self.faults self.old).keep (Self.faults self.new).keep }
        ensures hidden { Self.hidden self.new ≡ Self.hidden self.old };

    /// Keeps the batch after the others. Where it fails the batch is kept, as a later load tells, or it is not; the others are
    /// kept as they were.
    fn append(&mut self, batch: &[u8]) -> Result<(), Failed>
        ensures ok { OnOk result (AddsOne (Self.tape self.old) (Self.tape self.new) (Kept batch.now)) }
        ensures err { OnErr result (AddsOne (Self.tape self.old) (Self.tape self.new) (KeepFailed batch.now)) }
        ensures alone { KeepAlone (Self.faults self.old) (Self.faults self.new) }
        ensures cause { OnErr result (Rose (Self.faults self.old).keep (Self.faults self.new).keep) }
        ensures hidden { Self.hidden self.new ≡ Self.hidden self.old };
}

/// The clients' side: one client after another, each from an accept to a finish.
pub trait Front: Taped {
    /// Waits for the next client. False where no client will come. It fails where none can be accepted, as where the listener
    /// failed.
    fn accept(&mut self) -> Result<bool, Failed>
        ensures ok { IfOk result (λ more. AddsOne (Self.tape self.old) (Self.tape self.new) (if more then Accepted else NoMore)) }
        ensures err { OnErr result (AddsOne (Self.tape self.old) (Self.tape self.new) FrontFailed) }
        ensures alone { FrontAlone (Self.faults self.old) (Self.faults self.new) }
        ensures cause { OnErr result (Rose (Self.faults self.old).front (Self.faults self.new).front) }
        ensures hidden { Self.hidden self.new ≡ Self.hidden self.old };

    /// Waits for octets of the client, puts them at the front of `into`, and gives how many: at most the length of `into`, and
    /// 0 exactly where the client ended its input. It fails where its stream failed and where the wait is too long.
    fn recv(&mut self, into: &mut [u8]) -> Result<usize, Failed>
        requires { 0 < length into.old }
        ensures bound { IfOk result (λ n. n ≤ length into.new) }
        ensures ok { IfOk result (λ n. AddsOne (Self.tape self.old) (Self.tape self.new) (given (take n into.new))) }
        ensures err { OnErr result (AddsOne (Self.tape self.old) (Self.tape self.new) FrontFailed) }
        ensures alone { FrontAlone (Self.faults self.old) (Self.faults self.new) }
        ensures cause { OnErr result (Rose (Self.faults self.old).front (Self.faults self.new).front) }
        ensures hidden { Self.hidden self.new ≡ Self.hidden self.old };

    /// Gives the client some of the octets, from their front, and says how many it took, or are kept for it: at least 1. It fails
    /// where that is none.
    fn send(&mut self, from: &[u8]) -> Result<usize, Failed>
        requires { 0 < length from.now }
        ensures bound { IfOk result (λ n. (0 < n) × (n ≤ length from.now)) }
        ensures ok { IfOk result (λ n. AddsOne (Self.tape self.old) (Self.tape self.new) (ClientTook (take n from.now))) }
        ensures err { OnErr result (AddsOne (Self.tape self.old) (Self.tape self.new) FrontFailed) }
        ensures alone { FrontAlone (Self.faults self.old) (Self.faults self.new) }
        ensures cause { OnErr result (Rose (Self.faults self.old).front (Self.faults self.new).front) }
        ensures hidden { Self.hidden self.new ≡ Self.hidden self.old };

    /// This client is done with: nothing more is given for it, whatever part of an answer it got; what the front keeps of that may
    /// be sent yet. It can't fail.
    fn finish(&mut self)
        ensures tape { AddsOne (Self.tape self.old) (Self.tape self.new) ClientDone }
        ensures cause { NoFault (Self.faults self.old) (Self.faults self.new) }
        ensures hidden { Self.hidden self.new ≡ Self.hidden self.old };
}

/// The present moment.
pub trait Clock: Taped {
    /// Seconds since 1970-01-01T00:00:00Z, which the built program asks the host. No clause says that they grow: a world in memory
    /// gives the moments of its script. It can't fail.
    fn now(&mut self) -> i64
        ensures tape { AddsOne (Self.tape self.old) (Self.tape self.new) (Clock result) }
        ensures cause { NoFault (Self.faults self.old) (Self.faults self.new) }
        ensures hidden { Self.hidden self.new ≡ Self.hidden self.old };
}

/// Random words.
pub trait Chance: Taped {
    /// A word, which the built program draws from the host. No clause says that it is random: a world in memory gives the words
    /// of its script. It can't fail.
    fn word(&mut self) -> u64
        ensures tape { AddsOne (Self.tape self.old) (Self.tape self.new) (Word result) }
        ensures cause { NoFault (Self.faults self.old) (Self.faults self.new) }
        ensures hidden { Self.hidden self.new ≡ Self.hidden self.old };
}

/// Where whoever runs the program is told something.
pub trait Console: Taped {
    /// Says the whole text. It fails where what takes it doesn't take all, as where it is closed; some of it may have been said
    /// then.
    fn say(&mut self, text: &[u8]) -> Result<(), Failed>
        ensures ok { OnOk result (AddsOne (Self.tape self.old) (Self.tape self.new) (Said text.now)) }
        ensures err { OnErr result (AddsOne (Self.tape self.old) (Self.tape self.new) SayFailed) }
        ensures alone { SayAlone (Self.faults self.old) (Self.faults self.new) }
        ensures cause { OnErr result (Rose (Self.faults self.old).say (Self.faults self.new).say) }
        ensures hidden { Self.hidden self.new ≡ Self.hidden self.old };
}

/// What the program is told to keep to itself.
pub trait Secrets: Taped {
    /// The password of the store, the same at each call.
    fn password(&self) -> &[u8]
        ensures { result.now ≡ (Self.hidden self.now).password };

    /// The token that a client must show, the same at each call.
    fn token(&self) -> &[u8]
        ensures { result.now ≡ (Self.hidden self.now).token };
}

/// All of the outside.
pub trait World: Link + Front + Clock + Chance + Console + Secrets {}
