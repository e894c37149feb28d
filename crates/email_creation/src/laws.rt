// What the definitions of creations promise.
ghost use Rattle.std.specs.Prelude.{◌≡◌, ℕ, ℤ, List, Result, Ok, Err};
ghost use Rattle.serde_json.specs.Data.{Members};
ghost use Rattle.set_jobs.specs.declared.done.SetError.{SetError as error_type};
ghost use Rattle.set_jobs.specs.declared.job.Job.{Job as job_type};
ghost use Rattle.set_items.specs.Commands.{IsFit, MakesNothing, appends_of};
ghost use Rattle.set_given.specs.Given.{Given as GivenFacts};
ghost use Rattle.email_creation.specs.Appends.{AppendsLines, AreOctets, DrawsCreation};
ghost use Rattle.email_creation.specs.Creations.{ChecksCreation};
ghost use Rattle.email_creation.specs.declared.ready.ReadyCreation.{ReadyCreation as Ready};

use draft_reading::laws::properties_are_read_one_way;
use message_laws::laws::{message_is_lines, one_message_text};

/// A creation is refused for one reason, or passes and isn't refused.
pub fn creations_are_checked_one_way()
    ensures refused { (g : GivenFacts) (uploads : List (List ℕ)) (ms : Members) (one other : error_type) → ChecksCreation g uploads ms (Err one)
        → ChecksCreation g uploads ms (Err other) → one ≡ other }
    ensures passed { (g : GivenFacts) (uploads : List (List ℕ)) (ms : Members) (c : Ready) (e : error_type) → ChecksCreation g uploads ms (Ok c)
        → ChecksCreation g uploads ms (Err e) → ⊥ }
{
    properties_are_read_one_way();
}

/// A creation comes to one job at a moment, with a word, or to tooLarge.
pub fn creations_have_one_job()
    ensures { (c : Ready) (now : ℤ) (word : ℕ) (one other : Result job_type error_type) → DrawsCreation c now word one → DrawsCreation c now word other → one ≡ other }
{
    one_message_text();
}

/// The job of a creation has one APPEND and what a job may have besides, and comes to no Email but by it.
pub fn creations_append_once()
    ensures once { (c : Ready) (now : ℤ) (word : ℕ) (job : job_type) → DrawsCreation c now word (Ok job) → appends_of job.steps ≡ 1 }
    ensures fit { (c : Ready) (now : ℤ) (word : ℕ) (job : job_type) → DrawsCreation c now word (Ok job) → IsFit job }
    ensures makes_nothing { (c : Ready) (now : ℤ) (word : ℕ) (job : job_type) → DrawsCreation c now word (Ok job) → MakesNothing job }
{}

/// No message of a creation that passes its checks has an octet that breaks a line: CR and LF stand in pairs alone, and no other
/// control character is there.
pub fn creations_append_lines()
    ensures { (g : GivenFacts) (uploads : List (List ℕ)) (ms : Members) (c : Ready) (now : ℤ) (word : ℕ) (job : job_type) → AreOctets uploads
        → ChecksCreation g uploads ms (Ok c) → DrawsCreation c now word (Ok job) → AppendsLines job }
{
    message_is_lines();
}
