// Texts without their line ends.
ghost use Rattle.std.specs.Prelude.{◌≡◌};
ghost use Rattle.mail_header.specs.Lines as lines;

use text_words::begins_with_lf;

/// The text without the end of its last line.
pub fn without_end(text: &[u8]) -> &[u8]
    ensures { result.now ≡ lines.without_end text.now }
{
    let len = text.len();
    if len == 0 {
        return text;
    }
    let (line, last) = text.split_at(len - 1);
    if !begins_with_lf(last) {
        return text;
    }
    if len == 1 {
        return line;
    }
    let (inner, end) = text.split_at(len - 2);
    if begins_with_cr(end) { inner } else { line }
}

fn begins_with_cr(text: &[u8]) -> bool
    ensures { result ≡ lines.begins_with_cr text.now }
{
    match text {
        [] => false,
        [first, ..] => *first == b'\r',
    }
}
