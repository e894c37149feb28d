// The ids of what was created, by creation id.
ghost use Rattle.std.specs.Prelude.{◌≡◌, [], length, option_map, IfOk, OnOk, OnErr};
ghost use Rattle.serde_json.specs.Data.{object};
ghost use Rattle.serde_json.specs.View.{view, members_view};
ghost use Rattle.jmap_core.specs.CreatedIds.{put_id, id_of, id_members};
ghost use Rattle.jmap_core.specs.reading.Pairs.{pairs};

use octets::Text;
use serde_json::{Map, Value, put};
use std::alloc::{AllocError, Global};
use std::collections::BTreeMap;
use std::marker::Model;

/// The ids of what was created, by creation id in byte order (RFC 8620 section 3.3).
#[derive(Drop)]
pub struct CreatedIds {
    ids: BTreeMap<String, Text>,
}

impl Model for CreatedIds {
    ghost use Rattle.std.specs.Prelude.{List, ℕ, map, string_bytes};

    ghost Value = { List (List ℕ × List ℕ) };

    ghost view = { λ c. map (λ e. (string_bytes e.0, e.1)) c.ids.entries };
}

fn members_of(alloc: Global, ids: &BTreeMap<String, Text>) -> Result<Map<String, Value>, AllocError>
    ensures { IfOk result (λ members. members_view members.entries ≡ id_members (pairs ids.now.entries)) }
{
    let mut members = Map::new(alloc);
    for (creation, id) in ids.iter() {
        let id = Value::try_from_str(alloc, id.as_str())?;
        put(&mut members, alloc, creation.as_str(), id)?;
    }
    Ok(members)
}

impl CreatedIds {
    /// No ids.
    pub fn new(alloc: Global) -> CreatedIds
        ensures { result ≡ [] }
    {
        CreatedIds {
            ids: BTreeMap::new(alloc),
        }
    }

    /// The id at the creation id. Takes no memory.
    pub fn get(&self, creation: &str) -> Option<&str>
        ensures { option_map (λ id. id.now) result ≡ id_of creation.now self.now }
    {
        match self.ids.get(creation) {
            None => None,
            Some(id) => Some(id.as_str()),
        }
    }

    /// How many there are.
    pub fn len(&self) -> usize
        ensures { result ≡ length self.now }
    {
        self.ids.len()
    }

    /// Gives the creation id this id, also where it had another.
    pub fn put(&mut self, alloc: Global, creation: &str, id: &str) -> Result<(), AllocError>
        ensures put { OnOk result (self.new ≡ put_id creation.now id.now self.old) }
        ensures refused { OnErr result (self.new ≡ self.old) }
    {
        let name = String::from_str(alloc, creation)?;
        let id = Text::copy_of(alloc, id)?;
        self.ids.insert(name, id)?;
        Ok(())
    }

    /// The object that has each id at its creation id.
    pub fn to_value(&self, alloc: Global) -> Result<Value, AllocError>
        ensures { IfOk result (λ value. view value ≡ object (id_members self.now)) }
    {
        let members = members_of(alloc, &self.ids)?;
        Ok(Value::Object(members))
    }
}
