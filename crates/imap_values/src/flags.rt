// Flags: "(" [name *(SP name)] ")" (RFC 9051 section 9, flag-list and mbx-list-flags).
ghost use Rattle.std.specs.Prelude.{◌≡◌, [], length, map, drop, bytes_eq, codes, IfOk, OnOk};
ghost use Rattle.imap_types.specs.Octets as classes;
ghost use Rattle.imap_types.specs.Items as items;
ghost use Rattle.imap_values.specs.Spans as reading;

use crate::front_octets::{before, behind, lower, name_len, octet_at};
use octets::{Bytes, Names};
use std::alloc::{AllocError, Global};
use std::collections::BTreeSet;

/// The name in lower case.
fn lowered(alloc: Global, name: &[u8]) -> Result<Vec<u8>, AllocError>
    ensures { IfOk result (λ v. v.items ≡ map classes.lower name.now) }
{
    let mut out = Vec::with_capacity(alloc, name.len())?;
    for c in name {
        out.push(lower(*c))?;
    }
    Ok(out)
}

fn is_recent(name: &[u8]) -> bool
    ensures { result ≡ bytes_eq name.now (codes "\\recent") }
{
    name == b"\\recent".as_slice()
}

/// Adds a name in lower case, unless it is `\recent`.
fn add_name(set: &mut BTreeSet<Vec<u8>>, name: Vec<u8>) -> Result<(), AllocError>
    ensures { OnOk result (map (λ v. v.items) set.new.keys ≡ items.add_name (map (λ v. v.items) set.old.keys) name.items) }
{
    if is_recent(&name) {
        return Ok(());
    }
    set.insert(name)?;
    Ok(())
}

/// The names in order.
fn names_of(alloc: Global, set: BTreeSet<Vec<u8>>) -> Result<Names, AllocError>
    ensures { IfOk result (λ names. names ≡ map (λ v. v.items) set.keys) }
{
    let mut names = Names::new(alloc);
    for name in set {
        names.push(Bytes::from_vec(name)?)?;
    }
    Ok(names)
}

/// The names up to the closing bracket, and what follows it.
#[tactic(auto, unfolding(crate::specs::Spans::names_in))]
fn names_in(alloc: Global, bytes: &[u8]) -> Result<(BTreeSet<Vec<u8>>, &[u8]), AllocError>
    ensures names { IfOk result (λ r. map (λ v. v.items) r.0.keys ≡ (reading.names_in (length bytes.now) [] bytes.now).0) }
    ensures rest { IfOk result (λ r. r.1.now ≡ (reading.names_in (length bytes.now) [] bytes.now).1) }
{
    let mut set = BTreeSet::new(alloc);
    let mut rest = bytes;
    let mut left = bytes.len();
    while 0 < left {
        let n = name_len(rest);
        let name = lowered(alloc, before(rest, n))?;
        add_name(&mut set, name)?;
        let octet = octet_at(rest, n);
        rest = behind(rest, n + 1);
        if octet != b' ' {
            return Ok((set, rest));
        }
        left -= 1;
    }
    Ok((set, rest))
}

/// The name in lower case, or none where it is `\recent`.
fn one_name(alloc: Global, name: &[u8]) -> Result<Names, AllocError>
    ensures { IfOk result (λ names. names ≡ items.add_name [] (map classes.lower name.now)) }
{
    let mut names = Names::new(alloc);
    let name = lowered(alloc, name)?;
    if !is_recent(&name) {
        names.push(Bytes::from_vec(name)?)?;
    }
    Ok(names)
}

/// The flags from after the opening bracket on, and what follows the closing one. They are in lower case, in order, each
/// once, and without `\recent`.
#[tactic(auto, unfolding(crate::specs::Spans::flags_in))]
pub fn flags_in(alloc: Global, bytes: &[u8]) -> Result<(Names, &[u8]), AllocError>
    ensures flags { IfOk result (λ r. r.0 ≡ (reading.flags_in bytes.now).0) }
    ensures rest { IfOk result (λ r. r.1.now ≡ (reading.flags_in bytes.now).1) }
{
    if octet_at(bytes, 0) == b')' {
        return Ok((Names::new(alloc), behind(bytes, 1)));
    }
    let n = name_len(bytes);
    let after = octet_at(bytes, n);
    if n < bytes.len() && after != b' ' {
        let names = one_name(alloc, before(bytes, n))?;
        return Ok((names, behind(bytes, n + 1)));
    }
    let (set, rest) = names_in(alloc, bytes)?;
    let names = names_of(alloc, set)?;
    Ok((names, rest))
}
