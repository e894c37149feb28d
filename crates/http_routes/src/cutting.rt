// Cuts at the first of a mark.
ghost use Rattle.std.specs.Prelude.{◌≡◌, ◌<◌, ◌==◌};
ghost use Rattle.std.specs.List.{before_first, after_first};

/// What stands before the first of the mark, or all.
pub(crate) fn before(text: &str, mark: char) -> &str
    requires { mark < 128 }
    ensures { result.now ≡ before_first (λ octet. octet == mark) text.now }
{
    match text.split_once(mark) {
        Some((before, _)) => before,
        None => text,
    }
}

/// What stands after the first of the mark, or nothing.
pub(crate) fn after(text: &str, mark: char) -> &str
    requires { mark < 128 }
    ensures { result.now ≡ after_first (λ octet. octet == mark) text.now }
{
    match text.split_once(mark) {
        Some((_, after)) => after,
        None => "",
    }
}
