// What the jobs of items of Mailbox/set are.
ghost use Rattle.std.specs.Prelude.{◌≡◌, ℕ, Bool, List, Ok, Some};
ghost use Rattle.serde_json.specs.Data.{Members};
ghost use Rattle.told_folder.specs.declared.message.Folder.{Folder};
ghost use Rattle.set_given.specs.Given.{Given, folder_named, folder_to_destroy};
ghost use Rattle.set_jobs.specs.declared.job.Job.{Job};
ghost use Rattle.set_items.specs.Commands.{BeginsHeld, IsFit, appends_of};
ghost use Rattle.mailbox_checks.specs.Create.{create_mailbox};
ghost use Rattle.mailbox_checks.specs.Destroy.{destroy_mailbox};
ghost use Rattle.mailbox_checks.specs.Update.{update_mailbox};
ghost use Rattle.mailbox_laws.specs.Sent.{SendsCreation, SendsDestroy, SendsUpdate};

/// The commands of an item that passes its checks have to be obeyed, and the folder that it lists is the one that it made.
pub fn mailbox_items_are_fit()
    ensures create { (g : Given) (ms : Members) (job : Job) → create_mailbox g ms ≡ Ok job → IsFit job }
    ensures update { (g : Given) (text : List ℕ) (patch : Members) (job : Job) → update_mailbox g text patch ≡ Ok job → IsFit job }
    ensures destroy { (g : Given) (removes : Bool) (text : List ℕ) (job : Job) → destroy_mailbox g removes text ≡ Ok job → IsFit job }
{}

/// No item of a Mailbox/set selects a folder by its number.
pub fn mailbox_items_begin_held()
    ensures create { (g : Given) (ms : Members) (job : Job) → create_mailbox g ms ≡ Ok job → BeginsHeld g.mail job }
    ensures update { (g : Given) (text : List ℕ) (patch : Members) (job : Job) → update_mailbox g text patch ≡ Ok job → BeginsHeld g.mail job }
    ensures destroy { (g : Given) (removes : Bool) (text : List ℕ) (job : Job) → destroy_mailbox g removes text ≡ Ok job → BeginsHeld g.mail job }
{}

/// No item of a Mailbox/set sends an APPEND.
pub fn mailbox_items_append_nothing()
    ensures create { (g : Given) (ms : Members) (job : Job) → create_mailbox g ms ≡ Ok job → appends_of job.steps ≡ 0 }
    ensures update { (g : Given) (text : List ℕ) (patch : Members) (job : Job) → update_mailbox g text patch ≡ Ok job → appends_of job.steps ≡ 0 }
    ensures destroy { (g : Given) (removes : Bool) (text : List ℕ) (job : Job) → destroy_mailbox g removes text ≡ Ok job → appends_of job.steps ≡ 0 }
{}

/// A creation sends CREATE of the name that is asked under the parent that is asked, SUBSCRIBE exactly where that is asked, and selects what was made.
pub fn mailbox_creations_send_what_is_asked()
    ensures { (g : Given) (ms : Members) (job : Job) → create_mailbox g ms ≡ Ok job → SendsCreation g ms job }
{}

/// An update sends RENAME exactly where another name or another parent is asked, and the subscription exactly where another one is asked, or where the
/// folder had one and is renamed.
pub fn mailbox_updates_send_what_is_asked()
    ensures { (g : Given) (text : List ℕ) (patch : Members) (job : Job) (f : Folder) → folder_named g text ≡ Some f → update_mailbox g text patch ≡ Ok job
        → SendsUpdate g f patch job }
{}

/// A destroy sends DELETE of the folder.
pub fn mailbox_destroys_send_delete()
    ensures { (g : Given) (removes : Bool) (text : List ℕ) (job : Job) (f : Folder) → folder_to_destroy g text ≡ Some f
        → destroy_mailbox g removes text ≡ Ok job → SendsDestroy f job }
{}
