// Why a call over the link comes to nothing.
use std::alloc::AllocError;

/// The most octets that a store may give in one exchange, those that were held as it began too.
pub const MAX_EXCHANGE_OCTETS: u64 = 1_073_741_824;

/// The most octets that a store may give in one link life.
pub const MAX_LIFE_OCTETS: u64 = 4_611_686_018_427_387_904;

/// How a link life ended before what was asked of it was done.
#[derive(Clone, Copy, Debug, PartialEq, Eq)]
pub enum LinkEnd {
    /// The link failed, or the store ended it.
    Lost,
    /// No response begins at this offset of the octets that the store gave in the life.
    Bad { at: u64 },
    /// A tagged line with another tag than the one that is due, or an OK before the command could be sent whole.
    Stray,
    /// An untagged BYE.
    Bye,
    /// More than `MAX_EXCHANGE_OCTETS` in an exchange, or more than `MAX_LIFE_OCTETS` in the life.
    TooMuch,
    /// NO or BAD to a command that must be obeyed, or LOGIN isn't allowed.
    Refused,
    /// The store has no IMAP4rev2 or no QRESYNC.
    NoQresync,
    /// An OK without what it has to tell, or a folder that isn't there.
    Lacks,
    /// Out of memory.
    Memory,
}

impl From<AllocError> for LinkEnd {
    ghost use Rattle.imap_exchange.specs.declared.link_end.LinkEnd.TheVariants.{Memory};
    ghost use Rattle.std.specs.Prelude.{◌≡◌};

    ghost from_gives = { λ _ e. e ≡ Memory };

    fn from(_: AllocError) -> LinkEnd {
        LinkEnd::Memory
    }
}
