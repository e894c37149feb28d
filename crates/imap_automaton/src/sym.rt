// The symbols of the automaton's stack, in groups, and what an octet does to the first of them.
use imap_keywords::{Key, Pending, Phrase, WordPlace};

/// Within a line.
#[derive(Clone, Copy)]
pub enum Line {
    /// Before the first octet of a response.
    Start,
    /// Within a tag, after n octets.
    Tag(u8),
    /// After `* `.
    Untagged,
    /// After `* ` and a number of n digits, if a space follows.
    Sequence(u32, u8),
    /// Text up to the line's end.
    Text,
    /// Within a fixed text, after n octets.
    Fixed(Phrase, u8),
    /// Within a fixed text in letters of any case, after n octets.
    Folded(Phrase, u8),
}

/// Within words up to the line's end.
#[derive(Clone, Copy)]
pub enum Words {
    /// After a word.
    More,
    /// After a space, before the first octet of a word.
    First,
    /// Within a word, after its first octet.
    Rest,
}

/// Within a set of UIDs up to the line's end.
#[derive(Clone, Copy)]
pub enum Set {
    /// Before the set, or the word that it is an earlier one.
    Open,
    /// Within a number that isn't 0, its value so far and how many digits it has, and whether it is the second of a
    /// range.
    Number(u32, u8, bool),
}

/// Within text with literals.
#[derive(Clone, Copy)]
pub enum Free {
    /// Outside literals, by the count that stands at the end of the text so far.
    Text(Pending),
    /// After the CR of a literal of n octets.
    Break(u32),
    /// Within a literal, before n octets.
    Octets(u32),
}

/// Within the items of a FETCH.
#[derive(Clone, Copy)]
pub enum Item {
    /// Before the opening bracket.
    Open,
    /// After an item.
    More,
    /// Within a number that isn't 0, its value so far and how many digits it has.
    Number(u32, u8),
    /// Before a long number in brackets.
    LongOpen,
    /// Within a long number, its value so far and how many digits it has.
    Long(u64, u8),
}

/// Within the name of another item.
#[derive(Clone, Copy)]
pub enum ItemName {
    /// Before its section.
    Plain,
    /// Within its section.
    Section,
    /// After the closing bracket.
    After,
    /// After the `<`.
    Part,
    /// After a digit.
    Digits,
    /// After the `>`.
    End,
}

/// Within a date.
#[derive(Clone, Copy)]
pub enum Date {
    /// Before its quote.
    Open,
    /// After the quote and n octets, before the month.
    Day(u8),
    /// After the month and n octets.
    Time(u8),
}

/// Within names in brackets.
#[derive(Clone, Copy)]
pub enum Names {
    /// Before the opening bracket.
    Open,
    /// After it, before a name or the closing bracket.
    First,
    /// After a name.
    More,
    /// After a space, before a name.
    Name,
    /// After the `\` of a name, before its atom.
    Atom,
    /// Within an atom, after its first octet.
    AtomRest,
}

/// Within a string.
#[derive(Clone, Copy)]
pub enum Str {
    /// Before NIL, a quoted text or a literal.
    NString,
    /// Before an atom, a quoted text or a literal.
    AString,
    /// After the opening quote of a quoted text.
    Quoted,
    /// After a `\` of a quoted text.
    Escaped,
    /// After the `~` of a literal.
    Tilde,
    /// After a `~` that begins an atom or a literal.
    AtomTilde,
    /// Within a literal's count, its value so far and how many digits it has.
    Count(u32, u8),
    /// After the count of a literal of n octets.
    Brace(u32),
}

/// Within a value.
#[derive(Clone, Copy)]
pub enum Value {
    /// Before the value, outside brackets.
    Start,
    /// After an opening bracket that stands within n others.
    First(u8),
    /// Before a value in a bracket that stands within n others.
    Next(u8),
    /// After a value in a bracket that stands within n others.
    More(u8),
}

/// Within a LIST or a STATUS.
#[derive(Clone, Copy)]
pub enum Folder {
    /// After the attributes.
    Attributes,
    /// Before NIL or the opening quote of a delimiter.
    Delimiter,
    /// After the opening quote of a delimiter.
    DelimiterOctet,
    /// After a `\` of a delimiter.
    DelimiterEscaped,
    /// After the delimiter.
    Name,
    /// After the name of a LIST.
    ListEnd,
    /// After the name of a STATUS.
    Counts,
    /// After a space, before the opening bracket.
    CountsOpen,
    /// After the bracket, before a word or the closing bracket.
    FirstCount,
    /// Before a word and its number.
    Count,
    /// Within the word of a count, after its first octet.
    CountWord,
    /// After a count.
    MoreCounts,
}

/// What is still to come: a place within a rule of the grammar.
#[derive(Clone, Copy)]
pub enum Sym {
    /// The front of a line, text without literals up to its end, and fixed texts.
    Line(Line),
    /// Within a word, whose octets so far are the first n of the key's.
    Word(WordPlace, Key, u8),
    /// The rest of a line that isn't told, and the octets of any literal.
    Free(Free),
    /// The items of a FETCH with their numbers, and the numbers of a STATUS.
    Item(Item),
    /// Flags and attributes, and the rest of an atom.
    Names(Names),
    /// The value of INTERNALDATE.
    Date(Date),
    /// The name of an item that isn't told.
    ItemName(ItemName),
    /// What follows CAPABILITY or ENABLED.
    Words(Words),
    /// What follows VANISHED and its space.
    Set(Set),
    /// Quoted texts, and literals up to the `}` of their count.
    Str(Str),
    /// A value that isn't told, with its brackets.
    Value(Value),
    /// A LIST after its attributes, a STATUS after its name.
    Folder(Folder),
}

ghost use Rattle.std.specs.Prelude.{◌≡◌};
ghost use Rattle.imap_automaton.specs.Flow as flow;

/// How many octets of its literal a symbol still reads; 0 outside literals.
pub fn octets_left(sym: Sym) -> u32
    ensures { result ≡ flow.sym_left sym }
{
    match sym {
        Sym::Free(free) => literal_left(free),
        _ => 0,
    }
}

fn literal_left(free: Free) -> u32
    ensures { result ≡ flow.sym_left (Sym.Free free) }
{
    match free {
        Free::Octets(n) => n,
        _ => 0,
    }
}

/// The symbol within its literal, with as many octets still to be read.
pub fn with_left(sym: Sym, n: u32) -> Sym
    ensures { result ≡ flow.with_left sym n }
{
    match sym {
        Sym::Free(free) => literal_with_left(free, n),
        _ => sym,
    }
}

fn literal_with_left(free: Free, n: u32) -> Sym
    ensures { result ≡ flow.with_left (Sym.Free free) n }
{
    match free {
        Free::Octets(_) => Sym::Free(Free::Octets(n)),
        _ => Sym::Free(free),
    }
}
