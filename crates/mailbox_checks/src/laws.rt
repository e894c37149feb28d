//! What the definitions of checks promise, as clauses of functions that do nothing.
ghost use Rattle.std.specs.Prelude.{◌≡◌, ℕ, List, [], Ok};
ghost use Rattle.serde_json.specs.Data.{no_members};
ghost use Rattle.set_given.specs.Given.{Given};
ghost use Rattle.set_jobs.specs.declared.job.Job.{Job};
ghost use Rattle.mailbox_checks.specs.Update.{update_mailbox};

/// An update that names no property sends nothing.
pub fn unchanged_mailboxes_send_nothing()
    ensures { (g : Given) (text : List ℕ) (job : Job) → update_mailbox g text no_members ≡ Ok job → job.steps ≡ [] }
{}
