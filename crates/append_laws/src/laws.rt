//! APPENDs of the creations and imports of Emails.
ghost use Rattle.std.specs.Prelude.{ℕ, Bool, List, Option};
ghost use Rattle.gate_world.specs.declared.event.Event.{Event};
ghost use Rattle.told_mail.specs.Mail.{Mail};
ghost use Rattle.imap_client.specs.Bodies.{body_from, body_start};
ghost use Rattle.imap_client.specs.Connecting.{connect_plan};
ghost use Rattle.imap_client.specs.Rounds.{round_plan};
ghost use Rattle.gate_serving.specs.declared.door.Door.{Door};
ghost use Rattle.gate_serving.specs.declared.outcomes.ClientOutcome.{ClientOutcome};
ghost use Rattle.gate_serving.specs.GateState.{GateState};
ghost use Rattle.gate_serving.specs.Requests.{Account};
ghost use Rattle.gate_serving.specs.Run.{Run};
ghost use Rattle.gate_serving.specs.Segment.{Segment};
ghost use Rattle.append_laws.specs.Reading.{ChangesNothing};
ghost use Rattle.append_laws.specs.Runs.{RunAppendsOnce, SegmentAppendsOnce};

use email_creation::creations_append_once;
use email_import::imports_append_once;
use email_laws::{
    email_destroys_send_both, email_items_append_nothing, email_updates_send_what_is_asked,
};
use mailbox_laws::{
    mailbox_creations_send_what_is_asked, mailbox_destroys_send_delete,
    mailbox_items_append_nothing, mailbox_updates_send_what_is_asked,
};
use set_items::{exchanges_are_answers, made_by_one_append, no_append_is_repeated};

/// Whatever a client asks, the store takes octets of one APPEND at most for each creation or import of an Email, and of none for another item. What comes to a new
/// Email was put there by that APPEND, which was answered OK with a usable UID that contradicts nothing. All APPENDs that are completed in the link life of a
/// request are those of the items of its calls.
pub fn clients_append_once()
    ensures { (door : Door) (account : Account) (before : GateState) (events : List Event) (how : ClientOutcome) (after : GateState)
        (segment : Segment door account before events how after) → SegmentAppendsOnce segment }
{
    exchanges_are_answers();
    no_append_is_repeated();
    made_by_one_append();
    creations_append_once();
    imports_append_once();
    email_items_append_nothing();
    email_updates_send_what_is_asked();
    email_destroys_send_both();
    mailbox_items_append_nothing();
    mailbox_creations_send_what_is_asked();
    mailbox_updates_send_what_is_asked();
    mailbox_destroys_send_delete();
}

/// So it is for each client of a run.
pub fn runs_append_once()
    ensures { (door : Door) (account : Account) (before after : GateState) (events : List Event) (went : List ClientOutcome)
        (run : Run door account before events went after) → RunAppendsOnce run }
{
    clients_append_once();
}

/// Nothing but items of calls changes mail: connecting, a round and the fetch of a body ask for no command that does.
pub fn only_items_change_mail()
    ensures connecting { (preauth : Bool) (user password : List ℕ) → ChangesNothing (connect_plan preauth user password) }
    ensures round { (special_use : Bool) (m : Mail) → ChangesNothing (round_plan special_use m) }
    ensures fetch { (folder uid : ℕ) (selected : Option (List ℕ)) (m : Mail) → ChangesNothing (body_from folder uid (body_start selected m folder)) }
{}
