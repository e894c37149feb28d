// Laws of addresses.
ghost use Rattle.std.specs.Prelude.{◌≡◌, ℕ, List, Option};
ghost use Rattle.header_addresses.specs.declared.address.Address.{Address};
ghost use Rattle.header_addresses.specs.declared.address.Group.{Group};
ghost use Rattle.header_addresses.specs.AddressLists.{Addressee, IsAddressList};
ghost use Rattle.header_addresses.specs.Names.{IsAddressesForm, IsGroupsForm};

/// No text has two lists of mailboxes and groups.
pub fn one_address_list()
    ensures { (one other : List Addressee) (t : List ℕ) → IsAddressList one t → IsAddressList other t → one ≡ other }
{}

/// No raw value has two readings as addresses, nor as groups.
pub fn one_reading_of_addresses()
    ensures addresses { (one other : Option (List Address)) (raw : List ℕ) → IsAddressesForm raw one → IsAddressesForm raw other → one ≡ other }
    ensures groups { (one other : Option (List Group)) (raw : List ℕ) → IsGroupsForm raw one → IsGroupsForm raw other → one ≡ other }
{}
