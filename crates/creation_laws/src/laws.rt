// What determines the job of a creation.
ghost use Rattle.std.specs.Prelude.{◌≡◌, ℕ, ℤ, List, Result, Ok};
ghost use Rattle.serde_json.specs.Data.{Members};
ghost use Rattle.set_jobs.specs.declared.done.SetError.{SetError as error_type};
ghost use Rattle.set_jobs.specs.declared.job.Job.{Job as job_type};
ghost use Rattle.set_given.specs.Given.{Given as GivenFacts};
ghost use Rattle.email_creation.specs.Appends.{DrawsCreation};
ghost use Rattle.email_creation.specs.Creations.{ChecksCreation};
ghost use Rattle.email_creation.specs.declared.ready.ReadyCreation.{ReadyCreation as Ready};

use message_laws::laws::one_message_text;

/// What is sent for a creation is one thing, by what is given, the uploads, its properties, the moment and the word.
pub fn creations_send_one_thing()
    ensures { (g : GivenFacts) (uploads : List (List ℕ)) (ms : Members) (c d : Ready) (now : ℤ) (word : ℕ) (one other : Result job_type error_type) → ChecksCreation g uploads ms (Ok c)
        → ChecksCreation g uploads ms (Ok d) → DrawsCreation c now word one → DrawsCreation d now word other → one ≡ other }
{
    one_message_text();
}
