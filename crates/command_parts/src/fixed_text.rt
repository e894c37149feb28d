// Fixed texts of commands, in letters of any case.
ghost use Rattle.std.specs.Prelude.{◌≡◌, ◌≤◌, length};
ghost use Rattle.command_parts.specs.reading.FixedTexts as reading;
ghost use Rattle.command_parts.specs.reading.Steps.{ReadingGives};

use crate::no_command::NoCommand;
use imap_values::{behind, lower};

/// A fixed text.
#[derive(Clone, Copy)]
pub enum FixedText {
    // The commands, up to their first argument or their end (RFC 9051 section 6).
    /// RFC 9051 section 6.1.1.
    Capability,
    /// RFC 9051 section 6.2.3.
    Login,
    /// RFC 9051 section 6.3.1.
    Enable,
    /// RFC 9051 section 6.3.9, of every folder, the pattern in quotes.
    List,
    /// The same, the pattern as an atom.
    ListAtom,
    /// The same as `List`, with whether they are subscribed.
    ListSubscribed,
    /// The same, the pattern as an atom.
    ListAtomSubscribed,
    /// The same as `ListSubscribed`, with the special-use attributes (RFC 6154 section 2).
    ListSpecialUse,
    /// The same, the pattern as an atom.
    ListAtomSpecialUse,
    /// RFC 9051 section 6.3.2.
    Select,
    /// RFC 9051 section 6.4.2.
    Unselect,
    /// UID FETCH (RFC 9051 section 6.4.9).
    Fetch,
    /// UID STORE.
    Store,
    /// UID MOVE.
    Move,
    /// UID EXPUNGE.
    Expunge,
    /// RFC 9051 section 6.3.12.
    Append,
    /// RFC 9051 section 6.3.4.
    Create,
    /// RFC 9051 section 6.3.5.
    Delete,
    /// RFC 9051 section 6.3.6.
    Rename,
    /// RFC 9051 section 6.3.7.
    Subscribe,
    /// RFC 9051 section 6.3.8.
    Unsubscribe,

    // Within commands.
    /// Before the validity of a folder that is known (RFC 7162 section 3.2.5).
    Qresync,
    /// Behind its mod-sequence.
    KnownEnd,
    /// The end of a range of UIDs that has none.
    LastUid,
    /// What is fetched of messages of a folder with mod-sequences, and the command's end.
    ItemsWithModseq,
    /// What is fetched of messages of a folder without mod-sequences, and the command's end.
    ItemsWithoutModseq,
    /// Flags alone, and the command's end.
    FlagsOnly,
    /// The body, and the command's end.
    Body,
    /// Flags are set.
    Add,
    /// Flags are taken.
    Remove,
    /// The opening bracket of flags.
    Open,
    /// A space.
    Space,
    /// Before the head of a literal.
    LiteralOpen,
    /// The opening brace of a literal's head.
    Brace,
    /// The LF of the command's end.
    LineFeed,
    /// The command's end.
    LineEnd,

    // The months of a date, with the `-` behind them.
    /// Month 1.
    Jan,
    /// Month 2.
    Feb,
    /// Month 3.
    Mar,
    /// Month 4.
    Apr,
    /// Month 5.
    May,
    /// Month 6.
    Jun,
    /// Month 7.
    Jul,
    /// Month 8.
    Aug,
    /// Month 9.
    Sep,
    /// Month 10.
    Oct,
    /// Month 11.
    Nov,
    /// Month 12.
    Dec,
}

/// The texts of which one is read at a place. None of them begins another.
#[derive(Clone, Copy)]
pub enum Choice {
    /// Behind the tag.
    Commands,
    /// Behind the range of the UIDs from one to another, or from one on.
    Items,
    /// Behind `1:*`.
    AllItems,
    /// The sign and the word of flags that are changed.
    Changes,
    /// The month of a date.
    Months,
    /// One text.
    Only(FixedText),
}

/// The text, its letters in lower case.
pub fn fixed_text(keyword: FixedText) -> &'static [u8]
    ensures { result.now ≡ reading.fixed_text keyword }
{
    match keyword {
        FixedText::Capability => b"capability\r\n",
        FixedText::Login => b"login ",
        FixedText::Enable => b"enable qresync imap4rev2\r\n",
        FixedText::List => b"list \"\" \"*\"\r\n",
        FixedText::ListAtom => b"list \"\" *\r\n",
        FixedText::ListSubscribed => b"list \"\" \"*\" return (subscribed)\r\n",
        FixedText::ListAtomSubscribed => b"list \"\" * return (subscribed)\r\n",
        FixedText::ListSpecialUse => b"list \"\" \"*\" return (subscribed special-use)\r\n",
        FixedText::ListAtomSpecialUse => b"list \"\" * return (subscribed special-use)\r\n",
        FixedText::Select => b"select ",
        FixedText::Unselect => b"unselect\r\n",
        FixedText::Fetch => b"uid fetch ",
        FixedText::Store => b"uid store ",
        FixedText::Move => b"uid move ",
        FixedText::Expunge => b"uid expunge ",
        FixedText::Append => b"append ",
        FixedText::Create => b"create ",
        FixedText::Delete => b"delete ",
        FixedText::Rename => b"rename ",
        FixedText::Subscribe => b"subscribe ",
        FixedText::Unsubscribe => b"unsubscribe ",
        FixedText::Qresync => b"(qresync (",
        FixedText::KnownEnd => b")\r\n",
        FixedText::LastUid => b"* ",
        FixedText::ItemsWithModseq => {
            b"(uid flags modseq internaldate rfc822.size body.peek[header]<0.32768>)\r\n"
        }
        FixedText::ItemsWithoutModseq => {
            b"(uid flags internaldate rfc822.size body.peek[header]<0.32768>)\r\n"
        }
        FixedText::FlagsOnly => b"(uid flags)\r\n",
        FixedText::Body => b"(uid body.peek[]<0.50000000>)\r\n",
        FixedText::Add => b"+flags (",
        FixedText::Remove => b"-flags (",
        FixedText::Open => b"(",
        FixedText::Space => b" ",
        FixedText::LiteralOpen => b" {",
        FixedText::Brace => b"{",
        FixedText::LineFeed => b"\n",
        FixedText::LineEnd => b"\r\n",
        FixedText::Jan => b"jan-",
        FixedText::Feb => b"feb-",
        FixedText::Mar => b"mar-",
        FixedText::Apr => b"apr-",
        FixedText::May => b"may-",
        FixedText::Jun => b"jun-",
        FixedText::Jul => b"jul-",
        FixedText::Aug => b"aug-",
        FixedText::Sep => b"sep-",
        FixedText::Oct => b"oct-",
        FixedText::Nov => b"nov-",
        FixedText::Dec => b"dec-",
    }
}

static COMMANDS: [FixedText; 21] = [
    FixedText::Capability,
    FixedText::Login,
    FixedText::Enable,
    FixedText::List,
    FixedText::ListAtom,
    FixedText::ListSubscribed,
    FixedText::ListAtomSubscribed,
    FixedText::ListSpecialUse,
    FixedText::ListAtomSpecialUse,
    FixedText::Select,
    FixedText::Unselect,
    FixedText::Fetch,
    FixedText::Store,
    FixedText::Move,
    FixedText::Expunge,
    FixedText::Append,
    FixedText::Create,
    FixedText::Delete,
    FixedText::Rename,
    FixedText::Subscribe,
    FixedText::Unsubscribe,
];

static ITEMS: [FixedText; 2] = [FixedText::ItemsWithModseq, FixedText::ItemsWithoutModseq];

static ALL_ITEMS: [FixedText; 3] = [
    FixedText::ItemsWithModseq,
    FixedText::ItemsWithoutModseq,
    FixedText::FlagsOnly,
];

static CHANGES: [FixedText; 2] = [FixedText::Add, FixedText::Remove];

static MONTHS: [FixedText; 12] = [
    FixedText::Jan,
    FixedText::Feb,
    FixedText::Mar,
    FixedText::Apr,
    FixedText::May,
    FixedText::Jun,
    FixedText::Jul,
    FixedText::Aug,
    FixedText::Sep,
    FixedText::Oct,
    FixedText::Nov,
    FixedText::Dec,
];

/// How many octets at the front of both agree, those of the bytes in letters of any case.
#[tactic(auto, using(crate::proofs::Loops::agrees))]
fn agreeing(text: &[u8], bytes: &[u8]) -> usize
    ensures count { result ≡ reading.agreeing text.now bytes.now }
    ensures text { result ≤ length text.now }
    ensures bytes { result ≤ length bytes.now }
{
    for (i, x) in text.iter().enumerate() {
        if bytes.len() <= i {
            return i;
        }
        if lower(bytes[i]) != *x {
            return i;
        }
    }
    text.len()
}

/// The one of the texts that stands at the front, and what follows it.
fn choose<'a>(
    fixed_texts: &[FixedText],
    bytes: &'a [u8],
) -> Result<(FixedText, &'a [u8]), NoCommand>
    ensures { ReadingGives (λ x. (x.0, x.1.now)) result (reading.choose 0 fixed_texts.now bytes.now) }
{
    let mut farthest: usize = 0;
    for keyword in fixed_texts {
        let text = fixed_text(*keyword);
        let count = agreeing(text, bytes);
        if count == text.len() {
            return Ok((*keyword, behind(bytes, count)));
        }
        if count == bytes.len() {
            return Err(NoCommand::NeedMore);
        }
        farthest = farthest.max(count);
    }
    Err(NoCommand::Bad(bytes.len() - farthest))
}

/// The text of the place that stands at the front, and what follows it.
pub fn read_choice(choice: Choice, bytes: &[u8]) -> Result<(FixedText, &[u8]), NoCommand>
    ensures { ReadingGives (λ x. (x.0, x.1.now)) result (reading.choice_at choice bytes.now) }
{
    match choice {
        Choice::Commands => choose(&COMMANDS, bytes),
        Choice::Items => choose(&ITEMS, bytes),
        Choice::AllItems => choose(&ALL_ITEMS, bytes),
        Choice::Changes => choose(&CHANGES, bytes),
        Choice::Months => choose(&MONTHS, bytes),
        Choice::Only(keyword) => choose(&[keyword], bytes),
    }
}

/// The text where it stands at the front, and what follows it.
pub fn read_fixed(text: FixedText, bytes: &[u8]) -> Result<(FixedText, &[u8]), NoCommand>
    ensures { ReadingGives (λ x. (x.0, x.1.now)) result (reading.fixed_at text bytes.now) }
{
    read_choice(Choice::Only(text), bytes)
}
