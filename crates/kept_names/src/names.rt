// Names in kept form: lower case, sorted by octets, each once, without `\recent` (RFC 9051 section 2.3.2).
ghost use Rattle.std.specs.Prelude.{◌≡◌, ◌++◌, ℕ, List, [], ◌∷◌, map, bytes_eq, codes, filter, not, IfOk, OnOk};
ghost use Rattle.std.specs.List.{list_any};
ghost use Rattle.imap_types.specs.Octets as classes;
ghost use Rattle.imap_types.specs.Items as items;
ghost use Rattle.kept_names.specs.Changes as changes;

use imap_values::lower;
use octets::{Bytes, Names};
use std::alloc::{AllocError, Global};
use std::collections::BTreeSet;

/// The attribute of a folder that is subscribed.
const SUBSCRIBED: &[u8] = b"\\subscribed";

/// The name in lower case.
fn lowered(alloc: Global, name: &[u8]) -> Result<Vec<u8>, AllocError>
    ensures { IfOk result (λ v. v.items ≡ map classes.lower name.now) }
{
    let mut out = Vec::with_capacity(alloc, name.len())?;
    for c in name {
        out.push(lower(*c))?;
    }
    Ok(out)
}

fn is_recent(name: &[u8]) -> bool
    ensures { result ≡ bytes_eq name.now (codes "\\recent") }
{
    name == b"\\recent".as_slice()
}

/// Adds a name in lower case, unless it is `\recent`.
fn add_name(set: &mut BTreeSet<Vec<u8>>, name: Vec<u8>) -> Result<(), AllocError>
    ensures { OnOk result (map (λ v. v.items) set.new.keys ≡ items.add_name (map (λ v. v.items) set.old.keys) name.items) }
{
    if is_recent(&name) {
        return Ok(());
    }
    set.insert(name)?;
    Ok(())
}

/// Adds names, each in lower case.
fn add_names(alloc: Global, set: &mut BTreeSet<Vec<u8>>, names: &[Bytes]) -> Result<(), AllocError>
    ensures { OnOk result (map (λ v. v.items) set.new.keys ≡ items.kept_from (map (λ v. v.items) set.old.keys) names.now) }
{
    for name in names {
        let name = lowered(alloc, name.as_slice())?;
        add_name(set, name)?;
    }
    Ok(())
}

/// The names in order.
fn names_of(alloc: Global, set: BTreeSet<Vec<u8>>) -> Result<Names, AllocError>
    ensures { IfOk result (λ names. names ≡ map (λ v. v.items) set.keys) }
{
    let mut names = Names::new(alloc);
    for name in set {
        names.push(Bytes::from_vec(name)?)?;
    }
    Ok(names)
}

/// These names, and those, in kept form.
pub fn kept(alloc: Global, these: &[Bytes], those: &[Bytes]) -> Result<Names, AllocError>
    ensures { IfOk result (λ names. names ≡ items.kept (these.now ++ those.now)) }
{
    let mut set = BTreeSet::new(alloc);
    add_names(alloc, &mut set, these)?;
    add_names(alloc, &mut set, those)?;
    names_of(alloc, set)
}

/// The names, to be looked up in.
fn set_of(alloc: Global, names: &[Bytes]) -> Result<BTreeSet<Vec<u8>>, AllocError>
    ensures { IfOk result (λ set. (n : List ℕ) → list_any (bytes_eq n) (map (λ v. v.items) set.keys) ≡ list_any (bytes_eq n) names.now) }
{
    let mut set = BTreeSet::new(alloc);
    for name in names {
        set.insert(name.as_slice().to_vec(alloc)?)?;
    }
    Ok(set)
}

/// Whether the name is in the set.
fn is_in(set: &BTreeSet<Vec<u8>>, name: &[u8]) -> bool
    ensures { result ≡ list_any (bytes_eq name.now) (map (λ v. v.items) set.now.keys) }
{
    set.contains(name)
}

/// The names that aren't among those.
pub fn without(alloc: Global, names: &[Bytes], those: &[Bytes]) -> Result<Names, AllocError>
    ensures { IfOk result (λ left. left ≡ filter (λ f. not (list_any (λ g. bytes_eq f g) those.now)) names.now) }
{
    let those = set_of(alloc, those)?;
    let mut left = Names::new(alloc);
    for name in names {
        if !is_in(&those, name.as_slice()) {
            left.push(name.share()?)?;
        }
    }
    Ok(left)
}

/// The flags of a message with those that are asked, or without them (RFC 9051 section 6.4.6).
pub fn flags_after(
    alloc: Global,
    add: bool,
    asked: &[Bytes],
    was: &[Bytes],
) -> Result<Names, AllocError>
    ensures { IfOk result (λ flags. flags ≡ changes.flags_after add asked.now was.now) }
{
    if add {
        return kept(alloc, was, asked);
    }
    let asked = kept(alloc, asked, &[])?;
    without(alloc, was, asked.as_slice())
}

/// The attributes of a folder with `\subscribed`, or without it (RFC 9051 section 7.3.1).
pub fn subscribed(alloc: Global, on: bool, was: &[Bytes]) -> Result<Names, AllocError>
    ensures { IfOk result (λ names. names ≡ changes.subscribed on was.now) }
{
    let mut word = Names::new(alloc);
    word.push(Bytes::copy_of(alloc, SUBSCRIBED)?)?;
    if on {
        kept(alloc, word.as_slice(), was)
    } else {
        without(alloc, was, word.as_slice())
    }
}
