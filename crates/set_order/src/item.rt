// The items of a call.
ghost use Rattle.std.specs.Prelude.{◌≡◌};
ghost use Rattle.set_order.specs.Ordered.{item_key};
ghost use Rattle.set_order.specs.reading.Items.{item_data};

use set_arguments::Keyed;

/// An item of a call (RFC 8620 section 5.3).
#[derive(Clone, Copy)]
pub enum Item<'a> {
    /// An object is to be made under this creation id.
    Create(Keyed<'a>),
    /// One whose parent is to be made after it.
    Circle(&'a str),
    /// What this names is to be changed by this patch.
    Update(Keyed<'a>),
    /// What this names is to go.
    Destroy(&'a str),
}

impl<'a> Item<'a> {
    /// What the reply names it by.
    pub fn key(&self) -> &'a str
        ensures { result.now ≡ item_key (item_data self.now) }
    {
        match self {
            Item::Create(creation) => creation.key,
            Item::Circle(key) => *key,
            Item::Update(change) => change.key,
            Item::Destroy(text) => *text,
        }
    }
}
