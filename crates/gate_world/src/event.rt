// What is asked of the outside and answered by it.
use octets::{Bytes, Names};

/// One call to the outside, by what came of it.
#[derive(Debug, PartialEq, Drop)]
pub enum Event {
    /// A client came.
    Accepted,
    /// No client will come.
    NoMore,
    /// The client gave these octets, at least one.
    ClientGave(Bytes),
    /// The client ended its input.
    ClientEnded,
    /// The client took these octets, at least one.
    ClientTook(Bytes),
    /// The answer to this client is finished.
    ClientDone,
    /// An accept, a recv or a send failed.
    FrontFailed,
    /// A link life began.
    Dialed,
    /// The store gave these octets, at least one.
    StoreGave(Bytes),
    /// The store took these octets, at least one.
    StoreTook(Bytes),
    /// The link life ended, by either end; or a dial failed.
    LinkEnded,
    /// The kept batches, in order.
    Loaded(Names),
    /// This batch is kept.
    Kept(Bytes),
    /// An append of this batch failed: it is kept or not.
    KeepFailed(Bytes),
    /// The kept batches couldn't be read.
    LoadFailed,
    /// Seconds since 1970-01-01T00:00:00Z.
    Clock(i64),
    /// A random word.
    Word(u64),
    /// The console took a text.
    Said(Bytes),
    /// The console failed at a text, of which some may have been said.
    SayFailed,
}
