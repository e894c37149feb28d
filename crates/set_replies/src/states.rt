// Whether the state that a call names is the one that there is.
ghost use Rattle.std.specs.Prelude.{◌≡◌};
ghost use Rattle.jmap_arguments.specs.State.{state_text};
ghost use Rattle.mail_state.specs.History.{MailHistory};
ghost use Rattle.mail_state.specs.LookUps.{touches_kept};
ghost use Rattle.mail_state.specs.State.{IsStateOf};
ghost use Rattle.set_arguments.specs.reading.Asked.{asked_data};
ghost use Rattle.set_replies.specs.States as spec;
ghost use Rattle.set_replies.specs.reading.Types.{type_of};

use jmap_arguments::read_place;
use mail_state::{MailState, MailType};
use set_arguments::{SetAsked, SetMethod};

/// The type whose objects a method changes.
pub(crate) fn type_of(method: SetMethod) -> MailType
    ensures { result ≡ type_of method }
{
    match method {
        SetMethod::EmailSet | SetMethod::EmailImport => MailType::Email,
        SetMethod::MailboxSet => MailType::Mailbox,
    }
}

/// Whether the text is that of the state of this place. Takes no memory.
fn is_state(epoch: u64, place: u64, text: &str) -> bool
    ensures { result ≡ spec.is_text (state_text (record { epoch = epoch; place = place })) text.now }
{
    match read_place(epoch, text) {
        Some(named) => named == place,
        None => false,
    }
}

fn is_at_place(method: SetMethod, asked: &SetAsked<'_>, state: &MailState) -> bool
    ensures { result ≡ spec.is_state (state_text (record { epoch = state.now.epoch; place = (touches_kept state.now (type_of method)).place })) (asked_data asked.now).state }
{
    match asked.state {
        None => true,
        Some(text) => is_state(state.epoch(), state.list(type_of(method)).place(), text),
    }
}

/// Whether the state that a call names in `ifInState` is the one that there is (RFC 8620 section 5.3); true where it names none.
pub fn is_at_state(method: SetMethod, asked: &SetAsked<'_>, state: &MailState) -> bool
    ensures { (h : MailHistory) → IsStateOf h state.now → result ≡ spec.is_state (spec.state_of method h) (asked_data asked.now).state }
{
    is_at_place(method, asked, state)
}
