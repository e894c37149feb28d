// Message ids, one after another in one text.
ghost use Rattle.std.specs.Prelude.{◌≡◌, ◌<◌, ◌++◌, ◌∷◌, [], ◌||◌, ℕ, List, length, map, not, IfOk, IfSome, OnOk, MatchOption};
ghost use Rattle.std.specs.Str.{bytes_eq};
ghost use Rattle.text_words.specs.Cuts.{Each};
ghost use Rattle.thread_rule.specs.Ids.{is_within, ids_in, each_once};
ghost use Rattle.thread_rule.specs.reading.Once.{has_text};

use octets::Bytes;
use std::alloc::{AllocError, Global};
use std::collections::BTreeSet;
use std::fmt;
use std::marker::Model;
use text_words::{Class, behind, cut};

/// What ends an id in a text of ids. A header writes it so, and no id has it inside (RFC 5322 section 3.6.4).
pub const END: u8 = b'>';

/// Message ids in order, in one text that any number of owners share: it has an octet more than the ids have for each of
/// them. Contracts see the list of them.
#[derive(Drop)]
pub struct Ids {
    text: Bytes,
}

impl Model for Ids {
    ghost use Rattle.std.specs.Prelude.{List, ℕ};
    ghost use Rattle.thread_rule.specs.Ids.{ids_in};

    ghost Value = { List (List ℕ) };

    ghost view = { λ i. ids_in i.text };
}

impl Ids {
    /// The ids of a text in which each has its `>`, each once, where it stands first. It costs a search among those before
    /// it for each, and memory for its place while they are read.
    pub fn of(alloc: Global, text: &[u8]) -> Result<Ids, AllocError>
        ensures { IfOk result (λ ids. ids ≡ each_once (ids_in text.now)) }
    {
        let once = distinct(alloc, text)?;
        let text = Bytes::copy_of(alloc, once.as_slice())?;
        Ok(Ids { text })
    }

    /// One owner more of the same ids, with no copy.
    pub fn share(&self) -> Result<Ids, AllocError>
        ensures { IfOk result (λ ids. ids ≡ self.now) }
    {
        let text = self.text.share()?;
        Ok(Ids { text })
    }

    /// The text, which `next_id` reads.
    pub fn as_text(&self) -> &[u8]
        ensures { ids_in result.now ≡ self.now }
    {
        self.text.as_slice()
    }
}

impl fmt::Debug for Ids {
    fn fmt<W: fmt::Write>(&self, f: &mut fmt::Formatter<W>) -> fmt::Result {
        write!(f, "{:?}", self.text)
    }
}

/// The octets of an id.
struct Within;

impl Class<u8> for Within {
    ghost test = { is_within };

    fn has(&self, item: &u8) -> bool {
        *item != END
    }
}

/// The first id of a text, and what stands behind its `>`.
pub fn next_id(text: &[u8]) -> Option<(&[u8], &[u8])>
    ensures ids { MatchOption result (ids_in text.now ≡ []) (λ p. ids_in text.now ≡ p.0.now ∷ ids_in p.1.now) }
    ensures within { IfSome result (λ p. Each is_within p.0.now) }
    ensures shorter { IfSome result (λ p. length p.1.now < length text.now) }
{
    let (id, rest) = cut(&Within, text);
    match behind(END, rest) {
        None => None,
        Some(more) => Some((id, more)),
    }
}

/// Adds an id with its `>` at the end of a text.
pub fn push_id(text: &mut Vec<u8>, id: &[u8]) -> Result<(), AllocError>
    ensures { OnOk result (text.new.items ≡ text.old.items ++ (id.now ++ 62 ∷ [])) }
{
    text.extend_from_slice(id)?;
    text.push(END)?;
    Ok(())
}

/// Adds an id to those seen, and says whether it is new among them.
fn is_new<'a>(seen: &mut BTreeSet<&'a [u8]>, id: &'a [u8]) -> Result<bool, AllocError>
    ensures new { IfOk result (λ new. new ≡ not (has_text id.now (map (λ t. t.now) seen.old.keys))) }
    ensures seen { OnOk result ((other : List ℕ) → has_text other (map (λ t. t.now) seen.new.keys)
        ≡ (bytes_eq id.now other || has_text other (map (λ t. t.now) seen.old.keys))) }
{
    Ok(seen.insert(id)?)
}

/// The ids of a text, each once, where it stands first.
fn distinct(alloc: Global, text: &[u8]) -> Result<Vec<u8>, AllocError>
    ensures { IfOk result (λ once. ids_in once.items ≡ each_once (ids_in text.now)) }
{
    let mut seen = BTreeSet::new(alloc);
    let mut once = Vec::new(alloc);
    let mut rest = text;
    while let Some((id, more)) = next_id(rest) {
        let new = is_new(&mut seen, id)?;
        if new {
            push_id(&mut once, id)?;
        }
        rest = more;
    }
    Ok(once)
}
