// The laws of names.
ghost use Rattle.std.specs.Prelude.{ℕ, List, Some};
ghost use Rattle.mail_header.specs.Fields.{NameAndRaw};
ghost use Rattle.header_addresses.specs.declared.address.Address.{Address};
ghost use Rattle.header_addresses.specs.declared.address.Group.{Group};
ghost use Rattle.header_addresses.specs.Names.{IsAddressesForm, IsGroupsForm};
ghost use Rattle.loose_addresses.specs.LooseForms.{IsLooseAddressesForm, IsLooseGroupsForm};
ghost use Rattle.mime_fields.specs.declared.header.PartHeader.{PartHeader};
ghost use Rattle.mime_fields.specs.PartHeaders.{IsPartHeader};
ghost use Rattle.name_laws.specs.CleanNames.{IsCleanName, HaveCleanNames, AreCleanGroups};

/// No name of an address or a group has a control character.
pub fn names_are_clean()
    ensures addresses { (list : List Address) (raw : List ℕ) → IsAddressesForm raw (Some list) → HaveCleanNames list }
    ensures groups { (list : List Group) (raw : List ℕ) → IsGroupsForm raw (Some list) → AreCleanGroups list }
{}

/// Nor has one, as far as they read.
pub fn loose_names_are_clean()
    ensures addresses { (list : List Address) (raw : List ℕ) → IsLooseAddressesForm raw (Some list) → HaveCleanNames list }
    ensures groups { (list : List Group) (raw : List ℕ) → IsLooseGroupsForm raw (Some list) → AreCleanGroups list }
{}

/// No name of a part has a control character.
pub fn part_names_are_clean()
    ensures { (fields : List NameAndRaw) (h : PartHeader) → IsPartHeader fields h → IsCleanName h.name }
{}
