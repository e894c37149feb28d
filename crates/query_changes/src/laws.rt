//! Laws of answers, as clauses of functions that change nothing.
ghost use Rattle.std.specs.Prelude.{◌≡◌, ◌<◌, ◌^◌, Ok, Result, length};
ghost use Rattle.serde_json.specs.Data.{Data};
ghost use Rattle.change_list.specs.History.{entries_of};
ghost use Rattle.jmap_arguments.specs.declared.method_error.MethodError.{MethodError};
ghost use Rattle.mail_state.specs.History.{MailHistory};
ghost use Rattle.served_maps.specs.Past.{IsPast};
ghost use Rattle.query_changes.specs.Replies.{RepliesEmailQueryChanges, RepliesMailboxQueryChanges};
ghost use Rattle.query_changes.specs.Splicing.{SplicesEmails, SplicesMailboxes};

use query_core::laws::{one_email_list, one_mailbox_list};

/// What has become of the mail and a call determine what a queryChanges answers.
pub fn one_query_changes_answer()
    ensures emails { (h : MailHistory) (d : Data) (r s : Result Data MethodError) → length (entries_of h.emails.touches) < 2 ^ 64
        → RepliesEmailQueryChanges h d r → RepliesEmailQueryChanges h d s → r ≡ s }
    ensures mailboxes { (h : MailHistory) (d : Data) (r s : Result Data MethodError) → length (entries_of h.mailboxes.touches) < 2 ^ 64
        → RepliesMailboxQueryChanges h d r → RepliesMailboxQueryChanges h d s → r ≡ s }
{
    one_email_list();
    one_mailbox_list();
}

/// A client's list of the state that it named, spliced by the answer of a queryChanges, is the list of now.
pub fn answers_splice_lists()
    ensures emails { (h : MailHistory) (d reply : Data) → IsPast h.emails → RepliesEmailQueryChanges h d (Ok reply) → SplicesEmails h d reply }
    ensures mailboxes { (h : MailHistory) (d reply : Data) → IsPast h.mailboxes → RepliesMailboxQueryChanges h d (Ok reply) → SplicesMailboxes h d reply }
{}
