// The numbers of a type's objects.
ghost use Rattle.std.specs.Prelude.{◌≡◌, ◌<◌, ◌^◌, ℕ, List, length, IfOk, All};
ghost use Rattle.std.specs.List.Sorted.{IsStrictlySortedBy};
ghost use Rattle.std.specs.Ordering.{nat_cmp};
ghost use Rattle.jmap_arguments.specs.Gets.{is_number};

use std::alloc::AllocError;

/// The numbers that the objects of a type have.
pub trait Numbers {
    /// The numbers, ascending.
    ghost numbers: { Self → List ℕ };

    /// Whether there is an object of the number.
    fn has(&self, number: u64) -> bool
        ensures { result ≡ is_number (numbers self.now) number };

    /// How many there are. They ascend, and each has at most 64 bits.
    fn count(&self) -> usize
        ensures count { result ≡ length (numbers self.now) }
        ensures ascending { IsStrictlySortedBy nat_cmp (numbers self.now) }
        ensures small { All (λ n. n < 2 ^ 64) (numbers self.now) };

    /// The numbers, ascending.
    fn all(&self) -> Result<Vec<u64>, AllocError>
        ensures { IfOk result (λ v. v.items ≡ numbers self.now) };
}
