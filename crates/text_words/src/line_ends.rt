// Ends of lines (RFC 5322 section 2.1).
ghost use Rattle.std.specs.Prelude.{◌≡◌, ◌≤◌, length};
ghost use Rattle.text_words.specs.LineEnds as lines;

/// How many octets the end of the line at the front has: LF, or CR LF.
pub fn line_end_len(text: &[u8]) -> usize
    ensures value { result ≡ lines.line_end_len text.now }
    ensures within { result ≤ length text.now }
{
    match text {
        [] => 0,
        [first, rest @ ..] => {
            if *first == b'\n' {
                1
            } else if *first == b'\r' && begins_with_lf(rest) {
                2
            } else {
                0
            }
        }
    }
}

/// Whether an LF stands at the front.
pub fn begins_with_lf(text: &[u8]) -> bool
    ensures { result ≡ lines.begins_with_lf text.now }
{
    match text {
        [] => false,
        [first, ..] => *first == b'\n',
    }
}
