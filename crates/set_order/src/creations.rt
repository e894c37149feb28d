// What creation ids stand for.
ghost use Rattle.std.specs.Prelude.{◌≡◌, ℕ, List, option_map};
ghost use Rattle.set_order.specs.Creations as spec;
ghost use Rattle.set_order.specs.reading.Creating.{HasKeys};

use jmap_core::CreatedIds;
use std::collections::BTreeSet;

/// The creation id that a text names (RFC 8620 section 5.3).
pub fn creation_in(text: &str) -> Option<&str>
    ensures { option_map (λ t. t.now) result ≡ spec.creation_in text.now }
{
    text.strip_prefix('#')
}

/// The id, where it isn't written as what names a creation id.
fn no_creation(id: &str) -> Option<&str>
    ensures { option_map (λ t. t.now) result ≡ spec.no_creation id.now }
{
    match creation_in(id) {
        Some(_) => None,
        None => Some(id),
    }
}

/// The id of what was created before the call. What the call itself is to make has none before its commit.
fn id_created<'a>(
    making: &BTreeSet<&str>,
    created: &'a CreatedIds,
    creation: &str,
) -> Option<&'a str>
    ensures { (keys : List (List ℕ)) → HasKeys making.now keys → option_map (λ t. t.now) result ≡ spec.id_created keys created.now creation.now }
{
    if making.contains(creation) {
        return None;
    }
    no_creation(created.get(creation)?)
}

/// The id that a text stands for (RFC 8620 section 5.3), in a call that is to make these.
pub fn id_named<'a>(
    making: &BTreeSet<&str>,
    created: &'a CreatedIds,
    text: &'a str,
) -> Option<&'a str>
    ensures { (keys : List (List ℕ)) → HasKeys making.now keys → option_map (λ t. t.now) result ≡ spec.id_named keys created.now text.now }
{
    match creation_in(text) {
        None => Some(text),
        Some(creation) => id_created(making, created, creation),
    }
}
