//! What the definitions of names promise, as clauses of functions that do nothing.
ghost use Rattle.std.specs.Prelude.{◌≡◌, ℕ, List, None, Some, IsTrue};
ghost use Rattle.std.specs.List.{Contains};
ghost use Rattle.std.specs.Str.Lossy.{utf8_lossy};
ghost use Rattle.told_folder.specs.declared.message.Folder.{Folder};
ghost use Rattle.mail_maps.specs.Hierarchy.{NamesDiffer, own_name, parent_in};
ghost use Rattle.mailbox_names.specs.FitNames.{is_fit_name};
ghost use Rattle.mailbox_names.specs.FullNames.{full_name};

use mail_maps::laws::{a_folder_has_one_parent, parents_are_longest};

/// A folder whose name is made of a parent's and of a name that can be had there, or of such a name alone, is served under that parent, or at the top
/// level, by that name.
pub fn names_are_served_as_given()
    ensures under { (fs : List Folder) (parent f : Folder) (name : List ℕ) (d : ℕ) → NamesDiffer fs → Contains fs parent
        → parent.delimiter ≡ Some d → f.delimiter ≡ Some d → IsTrue (is_fit_name (Some d) name) → f.name ≡ full_name (Some parent) name
        → (parent_in fs f ≡ Some parent) × (own_name fs f ≡ utf8_lossy name) }
    ensures top { (fs : List Folder) (f : Folder) (name : List ℕ) → IsTrue (is_fit_name f.delimiter name) → f.name ≡ full_name None name
        → (parent_in fs f ≡ None) × (own_name fs f ≡ utf8_lossy name) }
{
    parents_are_longest();
    a_folder_has_one_parent();
}
