//! The laws of histories and states, as clauses of functions that do nothing.
ghost use Rattle.std.specs.Prelude.{◌≡◌, ◌↔◌, ℕ, ◌≤◌, ◌<◌, ◌≢◌, List, All, Contains, IsTrue, Option, Some, fold};
ghost use Rattle.change_list.specs.Advance.{IsExact, row_at};
ghost use Rattle.change_list.specs.Changes.{IsChanges};
ghost use Rattle.change_list.specs.History.{entries_of};
ghost use Rattle.change_list.specs.declared.answer.Changes.{Changes};
ghost use Rattle.told_folder.specs.declared.exchange.Exchange.{Exchange};
ghost use Rattle.told_folder.specs.declared.message.Folder.{Folder};
ghost use Rattle.told_folder.specs.declared.message.Message.{Message};
ghost use Rattle.told_mail.specs.Mail.{Mail, IsMail, IsNextMail, folder_in, message_in};
ghost use Rattle.told_changes.specs.Told.{told};
ghost use Rattle.served_maps.specs.Past.{had_at};
ghost use Rattle.mail_maps.specs.declared.row.EmailRow.{EmailRow};
ghost use Rattle.mail_maps.specs.Serve.{Email, ServedMailbox, mailbox_tests, email_tests, thread_tests};
ghost use Rattle.mail_state.specs.History.{MailHistory, IsReached, Advances, first_history};
ghost use Rattle.mail_state.specs.Sound.{IsSound};
ghost use Rattle.mail_state.specs.State.{IsStateOf, first_state};
ghost use Rattle.mail_state.specs.Telling.{HasItsMessage, IsSameMessage, IsTold, NoneMoves, StaysOrIsNew};
ghost use Rattle.mail_state.specs.Laws.{UsesOnce, KeepsCopies, HasCopyLaws, ComesBefore};

/// Each history that there is is sound.
pub fn all_are_sound()
    ensures { (h : MailHistory) → IsReached h → IsSound h }
{}

/// A state without mail stands for the first history.
pub fn first_stands()
    ensures { (epoch : ℕ) → IsStateOf (first_history epoch) (first_state epoch) }
{}

/// A history goes on to some mail in one way.
pub fn one_advance()
    ensures { (h : MailHistory) (m : Mail) (a b : MailHistory) → Advances h m a → Advances h m b → a ≡ b }
{}

/// No number is used twice.
pub fn numbers_are_new()
    ensures { (h after : MailHistory) (m : Mail) → IsSound h → IsNextMail h.mail m → Advances h m after → UsesOnce h after }
{}

/// A number never names two marks.
pub fn one_mark()
    ensures { (h : MailHistory) (i j q : ℕ) (u v : Email)
        → IsSound h → had_at h.emails i q ≡ Some u → had_at h.emails j q ≡ Some v → u.immutable.mark ≡ v.immutable.mark }
{}

/// As long as no MOVE is told, each message that exchanges leave stood at its place before, under its folder's validity, or its
/// mark is new.
pub fn messages_stay()
    ensures { (m : Mail) (xs : List Exchange) → IsMail m → NoneMoves xs → StaysOrIsNew m (fold told m xs) }
{}

/// As long as no MOVE is told, a mark that a message had names a message at the same place.
pub fn told_places_stay()
    ensures { (m : Mail) (xs : List Exchange) (p q : ℕ × ℕ) (a b : Message) → IsMail m → NoneMoves xs → message_in m.folders p.0 p.1 ≡ Some a
        → message_in (fold told m xs).folders q.0 q.1 ≡ Some b → b.mark ≡ a.mark → q ≡ p }
{}

/// A mark names one message for good: its header, date and size stay.
pub fn a_mark_names_one_message()
    ensures { (m : Mail) (xs : List Exchange) (p q : ℕ × ℕ) (a b : Message) → IsMail m → message_in m.folders p.0 p.1 ≡ Some a
        → message_in (fold told m xs).folders q.0 q.1 ≡ Some b → b.mark ≡ a.mark → IsSameMessage a b }
{}

/// As long as no MOVE is told, no Email of a folder that has another validity has a number of before.
pub fn a_new_validity_makes_new_ids()
    ensures { (h after : MailHistory) (xs : List Exchange) (f g : Folder) (number : ℕ) (row : EmailRow)
        → IsSound h → NoneMoves xs → Advances h (fold told h.mail xs) after → folder_in h.mail.folders row.folder ≡ Some f
        → folder_in after.mail.folders row.folder ≡ Some g → f.validity ≢ g.validity → row_at after.numbered.rows number ≡ Some row → h.numbered.next ≤ number }
{}

/// Each Email of what exchanges told has the header, date and size of the message of its mark, at its folder and UID.
pub fn emails_have_their_messages()
    ensures { (h : MailHistory) → IsTold h → All (HasItsMessage h.mail.folders) h.numbered.rows }
{}

/// Of two new Emails the one of the lower number comes first in the mail, by folder number and then UID.
pub fn new_emails_are_in_order()
    ensures { (h after : MailHistory) (m : Mail) (q r : ℕ) (u v : EmailRow)
        → IsSound h → IsNextMail h.mail m → Advances h m after → h.numbered.next ≤ q → q < r
        → row_at after.numbered.rows q ≡ Some u → row_at after.numbered.rows r ≡ Some v → ComesBefore u v }
{}

/// A client's copy of a type at a place stays one as the history goes on.
pub fn copies_stay()
    ensures { (h after : MailHistory) (m : Mail) → Advances h m after → KeepsCopies h after }
{}

/// Answers of changes, and values that are fetched, take a client's copy on, until it is the last map.
pub fn copies_follow()
    ensures mailboxes { (h : MailHistory) → HasCopyLaws h.mailboxes }
    ensures emails { (h : MailHistory) → HasCopyLaws h.emails }
    ensures threads { (h : MailHistory) → HasCopyLaws h.threads }
{}

/// The tests by which Mailboxes, Emails and Threads are compared tell served values apart, and no more. Two Mailboxes are the
/// same but for counts exactly where one with the other's counts is the other.
pub fn tests_are_exact()
    ensures mailboxes { IsExact mailbox_tests }
    ensures emails { IsExact email_tests }
    ensures threads { IsExact thread_tests }
    ensures counts { (u v : ServedMailbox) → IsTrue (mailbox_tests.counts u v) ↔ (record u { counts = v.counts } ≡ v) }
{}

/// Where an answer of changes says that the counts alone changed, all else of what was updated is as it was.
pub fn counts_alone_leave_the_rest()
    ensures { (h : MailHistory) (s i q : ℕ) (max : Option ℕ) (c : Changes) (u v : ServedMailbox)
        → IsReached h → IsChanges (entries_of h.mailboxes.touches) s max c → IsTrue c.counts_only → Contains c.updated q
        → s ≤ i → i ≤ c.to → had_at h.mailboxes s q ≡ Some u → had_at h.mailboxes i q ≡ Some v → record u { counts = v.counts } ≡ v }
{}
