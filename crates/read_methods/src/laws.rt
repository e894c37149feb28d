//! Laws of answers, as clauses of functions that do nothing.
ghost use Rattle.std.specs.Prelude.{◌≡◌, ◌<◌, ◌^◌, ℕ, List, Result, Ok, length};
ghost use Rattle.serde_json.specs.Data.{Data};
ghost use Rattle.change_list.specs.declared.entries.Entry.{Entry};
ghost use Rattle.jmap_arguments.specs.declared.method_error.MethodError.{MethodError};
ghost use Rattle.mail_state.specs.History.{MailHistory};
ghost use Rattle.read_methods.specs.Changes.{Further, AnswersChanges};
ghost use Rattle.read_methods.specs.Replies.{RepliesMailboxChanges, RepliesThreadChanges, RepliesEmailChanges, UpdatesMailboxes, UpdatesThreads, UpdatesEmails};

/// The touches of a type and a call determine what a /changes answers.
pub fn one_changes_answer()
    ensures { (letter epoch : ℕ) (h : List Entry) (further : Further) (d : Data) (r s : Result Data MethodError)
        → length h < 2 ^ 64 → AnswersChanges letter epoch h further d r → AnswersChanges letter epoch h further d s → r ≡ s }
{}

/// Applied to a client's copy of the state that was named, each answer of a /changes gives a copy of the new state.
pub fn answers_update_copies()
    ensures mailboxes { (h : MailHistory) (d reply : Data) → RepliesMailboxChanges h d (Ok reply) → UpdatesMailboxes h d reply }
    ensures threads { (h : MailHistory) (d reply : Data) → RepliesThreadChanges h d (Ok reply) → UpdatesThreads h d reply }
    ensures emails { (h : MailHistory) (d reply : Data) → RepliesEmailChanges h d (Ok reply) → UpdatesEmails h d reply }
{}
