// What the jobs of updates and destroys of Emails are.
ghost use Rattle.std.specs.Prelude.{◌≡◌, ℕ, List, Ok, Some};
ghost use Rattle.serde_json.specs.Data.{Members};
ghost use Rattle.set_jobs.specs.declared.job.Job.{Job};
ghost use Rattle.set_items.specs.Commands.{BeginsHeld, IsFit, appends_of};
ghost use Rattle.set_given.specs.Given.{EmailFound, Given, email_named};
ghost use Rattle.set_patches.specs.Patches.{patch_in};
ghost use Rattle.email_checks.specs.Emails.{update_email, destroy_email};
ghost use Rattle.email_laws.specs.Sent.{SendsDestroy, SendsWhatIsAsked};

/// The commands of an item that passes its checks have to be obeyed, but for EXPUNGE, and it makes and lists no folder.
pub fn email_items_are_fit()
    ensures update { (g : Given) (text : List ℕ) (patch : Members) (job : Job) → update_email g text patch ≡ Ok job → IsFit job }
    ensures destroy { (g : Given) (text : List ℕ) (job : Job) → destroy_email g text ≡ Ok job → IsFit job }
{}

/// An item that passes its checks selects a folder at first, if at all, and one that is held.
pub fn email_items_begin_held()
    ensures update { (g : Given) (text : List ℕ) (patch : Members) (job : Job) → update_email g text patch ≡ Ok job → BeginsHeld g.mail job }
    ensures destroy { (g : Given) (text : List ℕ) (job : Job) → destroy_email g text ≡ Ok job → BeginsHeld g.mail job }
{}

/// No update and no destroy of an Email sends an APPEND.
pub fn email_items_append_nothing()
    ensures update { (g : Given) (text : List ℕ) (patch : Members) (job : Job) → update_email g text patch ≡ Ok job → appends_of job.steps ≡ 0 }
    ensures destroy { (g : Given) (text : List ℕ) (job : Job) → destroy_email g text ≡ Ok job → appends_of job.steps ≡ 0 }
{}

/// An update sends what it asks: each keyword that changes, the MOVE exactly where another folder is asked, and nothing else.
pub fn email_updates_send_what_is_asked()
    ensures { (g : Given) (text : List ℕ) (patch : Members) (job : Job) (e : EmailFound) → email_named g text ≡ Some e → update_email g text patch ≡ Ok job
        → SendsWhatIsAsked g e (patch_in patch) job }
{}

/// A destroy sends STORE of `\Deleted` and EXPUNGE of the message.
pub fn email_destroys_send_both()
    ensures { (g : Given) (text : List ℕ) (job : Job) (e : EmailFound) → email_named g text ≡ Some e → destroy_email g text ≡ Ok job → SendsDestroy g e job }
{}
