// Slices that ascend by a number which each element has.
ghost use Rattle.std.specs.Prelude.{◌≡◌, ℕ, MatchResult};
ghost use Rattle.std.specs.Option.{option_copied};
ghost use Rattle.told_folder.specs.Keyed.{Ascends, with_key};
ghost use Rattle.told_folder.specs.Places.{IsPlace, IsHeldAt, IsFreeAt};

/// What has a number of its own.
pub trait Keyed {
    /// Its number.
    ghost key_of: { Self → ℕ };

    /// Its number.
    fn key(&self) -> u64
        ensures { result ≡ key_of self.now };
}

/// The place of the first element whose key isn't below this one, by halving.
pub fn place_of<T: Keyed>(items: &[T], key: u64) -> usize
    requires { Ascends T.key_of items.now }
    ensures { IsPlace T.key_of key items.now result }
{
    items.partition_point(|item| item.key() < key)
}

/// Where the element of this key stands, or the place that one would have.
pub fn index_of<T: Keyed>(items: &[T], key: u64) -> Result<usize, usize>
    requires { Ascends T.key_of items.now }
    ensures { MatchResult result (IsHeldAt T.key_of key items.now) (IsFreeAt T.key_of key items.now) }
{
    let at = place_of(items, key);
    if at < items.len() && items[at].key() == key {
        Ok(at)
    } else {
        Err(at)
    }
}

/// The element of this key.
pub fn find<T: Keyed>(items: &[T], key: u64) -> Option<&T>
    requires { Ascends T.key_of items.now }
    ensures { option_copied result ≡ with_key T.key_of key items.now }
{
    match index_of(items, key) {
        Ok(at) => Some(&items[at]),
        Err(_at) => None,
    }
}
