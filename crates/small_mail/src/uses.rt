// Names that folders have or had (RFC 9051 section 2.3.1.1).
ghost use Rattle.std.specs.Prelude.{◌≡◌};

use octets::Bytes;
use std::marker::Model;

/// A name that a folder has or had, and its UIDVALIDITY.
#[derive(Debug, Drop)]
pub struct StoredUse {
    name: Bytes,
    validity: u32,
}

impl Model for StoredUse {
    ghost use Rattle.honest_store.specs.StoreMail.{NameUse};

    ghost Value = { NameUse };

    ghost view = { λ u. record { number = u.validity; name = u.name; validity = u.validity } };
}

impl StoredUse {
    /// The use of the name by the folder of this UIDVALIDITY.
    pub fn new(name: Bytes, validity: u32) -> StoredUse
        ensures { result ≡ record { number = validity; name = name; validity = validity } }
    {
        StoredUse { name, validity }
    }

    /// The UIDVALIDITY of the folder that has or had the name.
    pub fn validity(&self) -> u32
        ensures { result ≡ self.now.validity }
    {
        self.validity
    }
}
