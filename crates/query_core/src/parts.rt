// The part of a list that a query asks.
ghost use Rattle.std.specs.Prelude.{◌≡◌, ◌<◌, option_map};
ghost use Rattle.query_arguments.specs.Values as values;
ghost use Rattle.query_core.specs.Answers as spec;

use jmap_arguments::read_id;
use query_arguments::AskedPart;
use query_lists::{Window, WindowAsked, WindowStart, window_of};

/// The number whose id the text is.
fn number_of_text(letter: char, id: &str) -> Option<u64>
    requires { letter < 128 }
    ensures { result ≡ values.number_of_id letter id.now }
{
    match read_id(letter, id) {
        None => None,
        Some(number) => Some(number),
    }
}

/// Where the part begins. None where the anchor is no id.
fn start_asked(letter: char, part: &AskedPart) -> Option<WindowStart>
    requires { letter < 128 }
    ensures { result ≡ spec.start_asked letter part.now.anchor part.now }
{
    match &part.anchor {
        None => Some(WindowStart::Position(part.position)),
        Some(anchor) => {
            let number = number_of_text(letter, anchor.as_str())?;
            Some(WindowStart::Anchor {
                number,
                offset: part.offset,
            })
        }
    }
}

/// The part of the list that is asked. None exactly where an anchor is asked that isn't in the list. It takes no memory.
pub(crate) fn part_of<'a>(letter: char, list: &'a [u64], part: &AskedPart) -> Option<Window<'a>>
    requires { letter < 128 }
    ensures { option_map (λ w. record { start = w.start; numbers = w.numbers.now }) result ≡ spec.part_of letter list.now part.now }
{
    let start = start_asked(letter, part)?;
    window_of(
        list,
        WindowAsked {
            start,
            limit: part.limit,
        },
    )
}
