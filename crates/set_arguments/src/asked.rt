// What an Email/set, a Mailbox/set or an Email/import asks.
ghost use Rattle.std.specs.Prelude.{IsTrue, map};
ghost use Rattle.set_arguments.specs.reading.Keys.{ascends, keyed_data};

use serde_json::{Map, Value};

/// An object, and what it is named by.
#[derive(Clone, Copy)]
pub struct Keyed<'a> {
    /// A creation id, or what names an object that there is.
    pub key: &'a str,
    /// The properties of what is to be made, or a patch.
    pub object: &'a Map<String, Value>,
}

/// What a call asks (RFC 8620 section 5.3).
#[derive(Drop)]
pub struct SetAsked<'a> {
    /// `ifInState`
    pub state: Option<&'a str>,
    /// What is to be made, by creation id.
    pub create: Vec<Keyed<'a>>,
    /// What is to be changed, by what names it.
    pub update: Vec<Keyed<'a>>,
    /// What names those that are to go.
    pub destroy: Vec<&'a str>,
    /// `onDestroyRemoveEmails` (RFC 8621 section 2.5): whether Mailboxes go with the Emails in them.
    pub removes: bool,
    // As in an object.
    ghost in_order: { IsTrue (ascends (map keyed_data create.items)) },
}
