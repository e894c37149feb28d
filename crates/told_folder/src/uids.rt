// Sets of UIDs.
ghost use Rattle.std.specs.Prelude.{◌≡◌, ℕ, Bool, true};

/// A set of UIDs that tells whether it has one.
pub trait Uids {
    /// Whether a number is one of its UIDs.
    ghost has: { Self → ℕ → Bool };

    /// Whether this UID is one of them.
    fn contains(&self, uid: u32) -> bool
        ensures { result ≡ Self.has self.now uid };
}

/// Every UID.
#[derive(Drop)]
pub struct AllUids;

impl Uids for AllUids {
    ghost has = { λ _ uid. true };

    fn contains(&self, _uid: u32) -> bool {
        true
    }
}
