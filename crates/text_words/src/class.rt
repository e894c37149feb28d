// Classes of units, and cuts by them.
ghost use Rattle.std.specs.Prelude.{◌≡◌, ◌↔◌, Bool, IsTrue};
ghost use Rattle.std.specs.List.{list_all};
ghost use Rattle.text_words.specs.Cuts.{Each, front, back};

/// A class of elements, as a set of octets or of tokens.
pub trait Class<T> {
    ghost test: { T → Bool };

    /// Whether the element is in the class.
    fn has(&self, item: &T) -> bool
        ensures { result ≡ test item.now };
}

/// What stands before the first element outside the class, and that element with all after it.
pub fn cut<'a, T, C: Class<T>>(class: &C, items: &'a [T]) -> (&'a [T], &'a [T])
    ensures front { result.0.now ≡ front C.test items.now }
    ensures back { result.1.now ≡ back C.test items.now }
{
    for (i, item) in items.iter().enumerate() {
        if !class.has(item) {
            return items.split_at(i);
        }
    }
    items.split_at(items.len())
}

/// Whether each element is in the class.
pub fn are_all<T, C: Class<T>>(class: &C, items: &[T]) -> bool
    ensures each { IsTrue result ↔ Each C.test items.now }
    ensures test { result ≡ list_all C.test items.now }
{
    let (_, rest) = cut(class, items);
    rest.is_empty()
}
