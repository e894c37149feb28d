//! What the definitions promise, as clauses of functions that do nothing.
ghost use Rattle.std.specs.Prelude.{◌≡◌, ℕ, List, false};
ghost use Rattle.serde_json.specs.Written.{has_float};
ghost use Rattle.mail_state.specs.History.{MailHistory};
ghost use Rattle.set_arguments.specs.declared.set_method.SetMethod.{SetMethod};
ghost use Rattle.set_jobs.specs.declared.done.Done.{Done};
ghost use Rattle.set_order.specs.Ordered.{Item};
ghost use Rattle.set_replies.specs.Lists.{Served, lists_of};
ghost use Rattle.set_replies.specs.Promises.{AreAnswered};
ghost use Rattle.set_replies.specs.Replies.{set_reply};

/// What each item of a call came to stands in a list of the reply for it.
pub fn items_are_answered()
    ensures { (m : SetMethod) (s : Served) (done : List (Item × Done)) → AreAnswered m (lists_of m s done) done }
{}

/// No number of a reply has a fraction.
pub fn replies_are_whole()
    ensures { (m : SetMethod) (before : ℕ) (h : MailHistory) (done : List (Item × Done)) → has_float (set_reply m before h done) ≡ false }
{}
