//! The laws of queries, as clauses of functions that do nothing.
ghost use Rattle.std.specs.Prelude.{◌≡◌, ℕ, List, Result};
ghost use Rattle.serde_json.specs.Data.{Data};
ghost use Rattle.jmap_arguments.specs.declared.method_error.MethodError.{MethodError};
ghost use Rattle.mail_maps.specs.Serve.{Email, ServedMailbox};
ghost use Rattle.mail_state.specs.History.{MailHistory};
ghost use Rattle.query_core.specs.Answers.{RepliesEmailQuery, RepliesMailboxQuery};
ghost use Rattle.query_core.specs.Lists.{EmailListAsked, IsEmailList, IsMailboxList, MailboxListAsked};

/// Of Emails one list is asked.
pub fn one_email_list()
    ensures { (emails : List (ℕ × Email)) (asked : EmailListAsked) (a b : List ℕ) → IsEmailList emails asked a → IsEmailList emails asked b → a ≡ b }
{}

/// Of Mailboxes one list is asked.
pub fn one_mailbox_list()
    ensures { (mailboxes : List (ℕ × ServedMailbox)) (asked : MailboxListAsked) (a b : List ℕ)
        → IsMailboxList mailboxes asked a → IsMailboxList mailboxes asked b → a ≡ b }
{}

/// What has become of the mail and a call determine what a query answers.
pub fn one_query_answer()
    ensures emails { (h : MailHistory) (d : Data) (r s : Result Data MethodError) → RepliesEmailQuery h d r → RepliesEmailQuery h d s → r ≡ s }
    ensures mailboxes { (h : MailHistory) (d : Data) (r s : Result Data MethodError) → RepliesMailboxQuery h d r → RepliesMailboxQuery h d s → r ≡ s }
{}
