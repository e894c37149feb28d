// What the definitions of imports promise.
ghost use Rattle.std.specs.Prelude.{◌≡◌, ◌++◌, ℕ, ℤ, List, Result};
ghost use Rattle.email_bodies.specs.Asking.{BodyAsk};
ghost use Rattle.email_bodies.specs.declared.error.BodyError.{BodyError};
ghost use Rattle.mail_maps.specs.Rows.{Rows};
ghost use Rattle.serde_json.specs.Data.{Members};
ghost use Rattle.set_jobs.specs.declared.done.SetError.{SetError as error_type};
ghost use Rattle.set_items.specs.Commands.{IsFit, MakesNothing, appends_of};
ghost use Rattle.set_given.specs.Given.{Given as GivenFacts};
ghost use Rattle.email_import.specs.Imports.{ChecksImport};
ghost use Rattle.email_import.specs.Messages.{FindsMessage, import_job};
ghost use Rattle.email_import.specs.declared.ready.ReadyImport.{ReadyImport as Ready};

use email_get::laws::one_blob_found;

/// An import is refused for one reason, or is one thing and isn't refused.
pub fn imports_are_checked_one_way()
    ensures { (g : GivenFacts) (ms : Members) (one other : Result Ready error_type) → ChecksImport g ms one → ChecksImport g ms other → one ≡ other }
{}

/// The bodies that are asked for an import, and how they were answered, tell what it comes to.
pub fn imports_find_one_message()
    ensures { (emails : Rows) (uploads : List (List ℕ)) (i : Ready) (asks more also later : List BodyAsk) (r s : Result (Result (List ℕ) error_type) BodyError)
        → FindsMessage emails uploads i asks r → FindsMessage emails uploads i also s → asks ++ more ≡ also ++ later → (asks ≡ also) × (r ≡ s) }
{
    one_blob_found();
}

/// The job of an import has one APPEND and what a job may have besides, and comes to no Email but by it.
pub fn imports_append_once()
    ensures once { (i : Ready) (now : ℤ) (message : List ℕ) → appends_of (import_job i now message).steps ≡ 1 }
    ensures fit { (i : Ready) (now : ℤ) (message : List ℕ) → IsFit (import_job i now message) }
    ensures makes_nothing { (i : Ready) (now : ℤ) (message : List ℕ) → MakesNothing (import_job i now message) }
{}
