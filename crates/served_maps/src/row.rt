// Rows of served maps, by what is served of them.
ghost use Rattle.std.specs.Prelude.{◌≡◌, Bool};

/// A row of a served map.
pub trait Row {
    /// Whether what is served of two rows is the same.
    ghost same: { Self → Self → Bool };

    /// Whether what is served of two rows is the same but for counts.
    ghost but_for_counts: { Self → Self → Bool };

    /// Whether what is served of two rows is the same.
    fn is_same(&self, other: &Self) -> bool
        ensures { result ≡ same self.now other.now };

    /// Whether what is served of two rows is the same but for counts.
    fn is_same_but_for_counts(&self, other: &Self) -> bool
        ensures { result ≡ but_for_counts self.now other.now };
}
