// Why octets aren't read as a command.
/// Why octets begin with no whole command.
#[derive(Clone, Copy, Debug, PartialEq, Eq, Drop)]
pub enum NoCommand {
    /// They begin a command.
    NeedMore,
    /// They begin a command and end with the head of a literal, none of whose octets is there.
    WantsLiteral,
    /// No command goes on with an octet: how many octets stand from that one on.
    Bad(usize),
}
