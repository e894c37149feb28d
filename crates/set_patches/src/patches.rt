// Patches: which properties an update names, and what is wrong with them (RFC 8620 section 5.3).
ghost use Rattle.std.specs.Prelude.{◌≡◌, ◌==◌, ◌∷◌, Bool, IfOk, OnOk, map};
ghost use Rattle.std.specs.List.{list_any, slice_split};
ghost use Rattle.serde_json.specs.Data.{Data};
ghost use Rattle.serde_json.specs.Find.{unescape};
ghost use Rattle.serde_json.specs.View.{view, members_view};
ghost use Rattle.jmap_arguments.specs.Arguments.{is_among};
ghost use Rattle.set_patches.specs.Patches as spec;
ghost use Rattle.set_patches.specs.reading.Parts.{has_front, names_in, part_data, points_nowhere, with_wrong};

use octets::{Listed, Text};
use result_references::unescaped;
use serde_json::{Map, Value};
use std::alloc::{AllocError, Global};
use std::collections::BTreeSet;

/// Where a part of a patch points: a JSON Pointer without its first slash (RFC 6901).
#[derive(Debug, Drop)]
pub enum Pointer {
    /// To a property.
    Whole(Text),
    /// To what a property has at a key.
    Within(Text, Text),
    /// Further into a property.
    Deeper(Text),
}

/// A part of a patch.
#[derive(Drop)]
pub struct Part<'a> {
    /// Where it points.
    pub pointer: Pointer,
    /// The value that is to stand there.
    pub value: &'a Value,
}

fn text_of(alloc: Global, token: &str) -> Result<Text, AllocError>
    ensures { IfOk result (λ text. text ≡ unescape token.now) }
{
    Ok(Text::from_string(unescaped(alloc, token)?))
}

/// A pointer into a property, at what stands after a slash.
fn pointer_within(alloc: Global, front: &str, rest: &str) -> Result<Pointer, AllocError>
    ensures { IfOk result (λ p. p ≡ spec.pointer_at (map unescape (front.now ∷ slice_split (λ c. c == 47) rest.now))) }
{
    let property = text_of(alloc, front)?;
    match rest.split_once('/') {
        None => Ok(Pointer::Within(property, text_of(alloc, rest)?)),
        Some(_) => Ok(Pointer::Deeper(property)),
    }
}

fn pointer_of(alloc: Global, key: &str) -> Result<Pointer, AllocError>
    ensures { IfOk result (λ p. p ≡ spec.pointer_of key.now) }
{
    match key.split_once('/') {
        None => Ok(Pointer::Whole(text_of(alloc, key)?)),
        Some((front, rest)) => Ok(pointer_within(alloc, front, rest)?),
    }
}

impl Pointer {
    /// The property that it points to or into.
    pub fn property(&self) -> &str
        ensures { result.now ≡ spec.property_of self.now }
    {
        match self {
            Pointer::Whole(property) => property.as_str(),
            Pointer::Within(property, _) => property.as_str(),
            Pointer::Deeper(property) => property.as_str(),
        }
    }
}

/// The parts of a patch.
pub fn patch_of<'a>(
    alloc: Global,
    patch: &'a Map<String, Value>,
) -> Result<Vec<Part<'a>>, AllocError>
    ensures { IfOk result (λ v. map part_data v.items ≡ spec.patch_in (members_view patch.now.entries)) }
{
    let mut parts = Vec::with_capacity(alloc, patch.len())?;
    for (key, value) in patch.iter() {
        let pointer = pointer_of(alloc, key.as_str())?;
        parts.push(Part { pointer, value })?;
    }
    Ok(parts)
}

/// The properties of an object that is to be made.
pub fn properties_of<'a>(
    alloc: Global,
    object: &'a Map<String, Value>,
) -> Result<Vec<Part<'a>>, AllocError>
    ensures { IfOk result (λ v. map part_data v.items ≡ spec.properties_in (members_view object.now.entries)) }
{
    let mut parts = Vec::with_capacity(alloc, object.len())?;
    for (key, value) in object.iter() {
        let pointer = Pointer::Whole(Text::copy_of(alloc, key.as_str())?);
        parts.push(Part { pointer, value })?;
    }
    Ok(parts)
}

/// Whether a property is among these.
fn is_one_of(property: &str, properties: &[&str]) -> bool
    ensures { result ≡ is_among property.now (map (λ t. t.now) properties.now) }
{
    for other in properties {
        if *other == property {
            return true;
        }
    }
    false
}

/// Whether a part points where nothing is: these properties alone have members, and no member has further ones.
fn leads_nowhere(objects: &[&str], pointer: &Pointer) -> bool
    ensures { result ≡ spec.leads_nowhere (map (λ t. t.now) objects.now) pointer.now }
{
    match pointer {
        Pointer::Whole(_) => false,
        Pointer::Within(property, _) => !is_one_of(property.as_str(), objects),
        Pointer::Deeper(_) => true,
    }
}

fn one_leads_nowhere(objects: &[&str], parts: &Vec<Part<'_>>) -> bool
    ensures { result ≡ list_any (points_nowhere (map (λ t. t.now) objects.now)) (map part_data parts.now.items) }
{
    for part in parts {
        if leads_nowhere(objects, &part.pointer) {
            return true;
        }
    }
    false
}

/// Whether the patch has a part at the front of this key, before its first slash.
fn has_front(patch: &Map<String, Value>, key: &str) -> bool
    ensures { result ≡ has_front (members_view patch.now.entries) key.now }
{
    match key.split_once('/') {
        None => false,
        Some((front, _)) => patch.contains_key(front),
    }
}

/// Whether a part points into what another one points at, where none points further than into a property.
fn one_has_front(patch: &Map<String, Value>) -> bool
    ensures { result ≡ list_any (has_front (members_view patch.now.entries)) (spec.member_keys (members_view patch.now.entries)) }
{
    for (key, _value) in patch.iter() {
        if has_front(patch, key.as_str()) {
            return true;
        }
    }
    false
}

/// Whether parts overlap or one points where nothing is. It costs a look-up a part.
pub fn is_invalid_patch(objects: &[&str], patch: &Map<String, Value>, parts: &Vec<Part<'_>>) -> bool
    requires { map part_data parts.now.items ≡ spec.patch_in (members_view patch.now.entries) }
    ensures { result ≡ spec.is_invalid_patch (map (λ t. t.now) objects.now) (members_view patch.now.entries) }
{
    one_leads_nowhere(objects, parts) || one_has_front(patch)
}

/// A test of the values of properties.
pub trait PropertyTest {
    ghost use Rattle.set_patches.specs.declared.patches.Pointer.{Pointer};

    ghost Tests: { Self → (Pointer → Data → Bool) → Type 0 };

    /// Whether the value may stand there.
    fn is_right(&self, pointer: &Pointer, value: &Value) -> Result<bool, AllocError>
        ensures { (test : Pointer → Data → Bool) → Tests self.now test → IfOk result (λ right. right ≡ test pointer.now (view value.now)) };
}

fn add_if_wrong<T: PropertyTest>(
    alloc: Global,
    test: &T,
    names: &mut BTreeSet<String>,
    part: &Part<'_>,
) -> Result<(), AllocError>
    ensures { (is_right : Pointer → Data → Bool) → T.Tests test.now is_right
        → OnOk result (names_in names.new ≡ with_wrong is_right (names_in names.old) (part_data part.now)) }
{
    let right = test.is_right(&part.pointer, part.value)?;
    if !right {
        names.insert(String::from_str(alloc, part.pointer.property())?)?;
    }
    Ok(())
}

fn texts_of(alloc: Global, names: BTreeSet<String>) -> Result<Listed<Text>, AllocError>
    ensures { IfOk result (λ texts. texts ≡ names_in names) }
{
    let mut texts = Listed::from_vec(Vec::with_capacity(alloc, names.len())?);
    for name in names {
        texts.push(Text::from_string(name))?;
    }
    Ok(texts)
}

/// The properties of the parts that fail the test, sorted, each once.
pub fn wrong_properties<T: PropertyTest>(
    alloc: Global,
    test: &T,
    parts: &Vec<Part<'_>>,
) -> Result<Listed<Text>, AllocError>
    ensures { (is_right : Pointer → Data → Bool) → T.Tests test.now is_right
        → IfOk result (λ names. names ≡ spec.wrong_properties is_right (map part_data parts.now.items)) }
{
    let mut names = BTreeSet::new(alloc);
    for part in parts {
        add_if_wrong(alloc, test, &mut names, part)?;
    }
    texts_of(alloc, names)
}
