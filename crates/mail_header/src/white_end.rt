// Texts without white space at their end.
ghost use Rattle.std.specs.Prelude.{◌≡◌};
ghost use Rattle.mail_header.specs.WhiteEnd as white_end;

use text_words::is_white;

/// The text without the white space at its end.
pub fn without_white_end(text: &[u8]) -> &[u8]
    ensures { result.now ≡ white_end.without_white_end text.now }
{
    let mut rest = text;
    while let [before @ .., last] = rest {
        if !is_white(*last) {
            return rest;
        }
        rest = before;
    }
    rest
}
