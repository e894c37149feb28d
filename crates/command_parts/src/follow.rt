// What may follow a part of a command.
ghost use Rattle.std.specs.Prelude.{◌≡◌};
ghost use Rattle.command_parts.specs.reading.Lexemes as reading;

/// The octets of which one follows, as its place has it.
#[derive(Clone, Copy)]
pub enum Follow {
    /// A space, before a further argument.
    Space,
    /// The CR of the command's end.
    Line,
    /// Either of these.
    SpaceOrLine,
    /// A colon, before the end of a range of UIDs, or a space.
    ColonOrSpace,
    /// A closing bracket.
    Close,
}

/// Whether the octet may follow.
pub fn may_follow(follow: Follow, c: u8) -> bool
    ensures { result ≡ reading.may_follow follow c }
{
    match follow {
        Follow::Space => c == b' ',
        Follow::Line => c == b'\r',
        Follow::SpaceOrLine => c == b' ' || c == b'\r',
        Follow::ColonOrSpace => c == b':' || c == b' ',
        Follow::Close => c == b')',
    }
}
