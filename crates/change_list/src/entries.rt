// Touches of a type, as a change list keeps them.
ghost use Rattle.std.specs.Prelude.{◌≡◌};
ghost use Rattle.change_list.specs.Touches.{leaves, finds};

/// What a touch does to its id.
#[derive(Clone, Copy, Debug, PartialEq, Eq)]
pub enum Kind {
    /// The id isn't there before, and is after.
    Added,
    /// The id is there before and after, with another value.
    Changed,
    /// The id is there before, and never again.
    Removed,
}

impl Kind {
    /// Whether the id is there after the touch.
    pub(crate) fn leaves(self) -> bool
        ensures { result ≡ leaves self }
    {
        self != Kind::Removed
    }

    /// Whether the id was there before the touch.
    pub(crate) fn finds(self) -> bool
        ensures { result ≡ finds self }
    {
        self != Kind::Added
    }
}

/// One touch of a type: the id at which two neighbouring maps differ.
#[derive(Clone, Copy, Debug, PartialEq, Eq)]
pub struct Entry {
    /// The number of the object, by which the maps of the type know it.
    pub id: u64,
    /// How the two maps differ at the id.
    pub kind: Kind,
    /// Whether the touch changed nothing but counts (RFC 8621, section 2.2).
    pub counts_only: bool,
}
