// Options, as they are written.
ghost use Rattle.std.specs.Prelude.{◌≡◌, option_map, true, false, IsTrue, ◌↔◌};
ghost use Rattle.gate_words.specs.reading.Lent.{setting_in};
ghost use Rattle.gate_words.specs.reading.Words as spec;

/// The name of an option.
#[derive(Clone, Copy, Debug, PartialEq, Eq)]
pub(crate) enum Name {
    Store,
    User,
    Base,
    Listen,
    Connections,
}

/// An option with its value.
#[derive(Clone, Copy)]
pub(crate) struct LentSetting<'a> {
    pub(crate) name: Name,
    pub(crate) value: &'a str,
}

/// The option that a word is.
pub(crate) fn name_of(word: &str) -> Option<Name>
    ensures { result ≡ spec.name_of word.now }
{
    match word {
        "--store" => Some(Name::Store),
        "--user" => Some(Name::User),
        "--base" => Some(Name::Base),
        "--listen" => Some(Name::Listen),
        "--connections" => Some(Name::Connections),
        _ => None,
    }
}

/// The parts of a word round its first `=`.
fn cut(word: &str) -> Option<(&str, &str)>
    ensures { option_map (λ parts. (parts.0.now, parts.1.now)) result ≡ spec.cut word.now }
{
    word.split_once('=')
}

/// The option and value that a word is with `=` between them.
pub(crate) fn joined(word: &str) -> Option<LentSetting<'_>>
    ensures { option_map setting_in result ≡ spec.joined word.now }
{
    let (name, value) = cut(word)?;
    Some(LentSetting {
        name: name_of(name)?,
        value,
    })
}
