// The laws of addresses as far as they read.
ghost use Rattle.std.specs.Prelude.{◌≡◌, ℕ, List, Option};
ghost use Rattle.header_addresses.specs.declared.address.Address.{Address};
ghost use Rattle.header_addresses.specs.declared.address.Group.{Group};
ghost use Rattle.loose_addresses.specs.LooseForms.{IsLooseAddressesForm, IsLooseGroupsForm};
ghost use Rattle.loose_addresses.specs.LooseLists.{AreLoose};

/// No text has two lists of addresses, as far as they read.
pub fn one_loose_list()
    ensures { (one other : List Address) (t : List ℕ) → AreLoose one t → AreLoose other t → one ≡ other }
{}

/// No raw value has two readings as addresses, or two as groups.
pub fn one_loose_reading()
    ensures addresses { (one other : Option (List Address)) (raw : List ℕ) → IsLooseAddressesForm raw one → IsLooseAddressesForm raw other → one ≡ other }
    ensures groups { (one other : Option (List Group)) (raw : List ℕ) → IsLooseGroupsForm raw one → IsLooseGroupsForm raw other → one ≡ other }
{}
