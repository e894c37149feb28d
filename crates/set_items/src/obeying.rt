// What an OK to a step makes of its item.
ghost use Rattle.std.specs.List.{list_any};
ghost use Rattle.std.specs.Option.{option_copied, option_map};
ghost use Rattle.std.specs.Prelude.{◌≡◌, ◌&&◌, Option, is_some};
ghost use Rattle.told_folder.specs.declared.message.NumberedFolder.{NumberedFolder};
ghost use Rattle.told_mail.specs.Exchanges as telling;
ghost use Rattle.told_mail.specs.Mail.{Mail, folder_number, named};
ghost use Rattle.mail_maps.specs.Keywords as keywords;
ghost use Rattle.told_changes.specs.Changes.{named_by};
ghost use Rattle.told_changes.specs.Landings.{told_landing};
ghost use Rattle.set_items.specs.Items as items;

use crate::selecting::tells_validity;
use crate::stage::{ItemStage, Rest, refused};
use imap_client::Refusal;
use imap_types::{Command, FetchItems, Response, Status};
use mail_maps::keywords::has_name;
use mail_maps::visible::is_served;
use octets::{Bytes, Names};
use set_jobs::{Done, SetError, Step};
use told_changes::{Landing, is_changing};
use told_mail::{Exchange, Message, Mirror};

/// A completed exchange, and what an item has to know of the mail before and after it.
#[derive(Drop)]
pub struct Heard<'a> {
    pub exchange: &'a Exchange,
    /// Where its message went.
    pub landing: Option<Landing>,
    /// The next mark before it.
    pub mark: u64,
    /// The mail after it.
    pub mirror: &'a Mirror,
}

// ---- SELECT

/// Whether the message of the mark is served.
fn shows(mirror: &Mirror, mark: u64) -> bool
    ensures { result ≡ items.shows mirror.now.mail mark }
{
    mirror.each_is_mail();
    let Some((folder, uid)) = mirror.place_of(mark) else {
        return false;
    };
    match mirror.message(folder, uid) {
        Some(message) => is_served(message),
        None => false,
    }
}

fn selected(rest: Rest, tells: bool, shows: bool) -> ItemStage
    ensures { result ≡ items.selected_stage rest.left rest.changed rest.done tells shows }
{
    if !tells {
        return ItemStage::Failing(Refusal::Lacks);
    }
    if shows {
        rest.going()
    } else {
        ItemStage::Settled(Done::Not(SetError::NotFound))
    }
}

// ---- changing commands

fn moved(rest: Rest, landing: Option<Landing>) -> ItemStage
    ensures { result ≡ items.moved_stage rest.left rest.changed rest.done landing }
{
    match landing {
        Some(_) => rest.going(),
        None => ItemStage::Partly,
    }
}

/// A message of this size was put there under the mark.
fn made(rest: Rest, mark: u64, size: u64, landing: Option<Landing>) -> ItemStage
    ensures { result ≡ items.made_stage rest.left rest.changed mark size landing }
{
    match landing {
        Some(_) => Rest {
            left: rest.left,
            changed: rest.changed,
            done: Done::Made { mark, size },
        }
        .going(),
        None => ItemStage::Partly,
    }
}

fn changed(command: &Command, rest: Rest, heard: &Heard<'_>) -> ItemStage
    ensures { (before : Mail) → told_landing before heard.now.exchange.now ≡ heard.now.landing → before.next_mark ≡ heard.now.mark
        → result ≡ items.changed_stage command.now rest.left rest.changed rest.done before heard.now.exchange.now }
{
    match command {
        Command::Move { .. } => moved(rest, heard.landing),
        Command::Append { message, .. } => made(
            rest,
            heard.mark,
            message.as_slice().len() as u64,
            heard.landing,
        ),
        _ => rest.going(),
    }
}

// ---- STORE of `\Deleted`

fn is_uid(uid: u32, told: Option<u32>) -> bool
    ensures { result ≡ telling.is_uid uid told }
{
    match told {
        Some(told) => told == uid,
        None => false,
    }
}

fn has_deleted(flags: &Names) -> bool
    ensures { result ≡ keywords.has_name items.deleted_flag flags.now }
{
    has_name(b"\\deleted", flags)
}

fn lacks_deleted(flags: &Option<Names>) -> bool
    ensures { result ≡ items.lacks_deleted flags.now }
{
    match flags {
        Some(flags) => !has_deleted(flags),
        None => false,
    }
}

fn items_tell_undeleted(uid: u32, told: &FetchItems) -> bool
    ensures { result ≡ (telling.is_uid uid told.now.uid && items.lacks_deleted told.now.flags) }
{
    is_uid(uid, told.uid) && lacks_deleted(&told.flags)
}

/// Whether the response tells flags of the message of the UID without `\deleted`.
fn tells_undeleted(uid: u32, response: &Response) -> bool
    ensures { result ≡ items.tells_undeleted uid response.now }
{
    match response {
        Response::Fetch { items, .. } => items_tell_undeleted(uid, items),
        _ => false,
    }
}

fn some_tells_undeleted(uid: u32, responses: &[Response]) -> bool
    ensures { result ≡ list_any (items.tells_undeleted uid) responses.now }
{
    responses
        .iter()
        .any(|response| tells_undeleted(uid, response))
}

/// A message that is held has the flag; of one that is gone no flags without it were told.
fn is_deleted(message: Option<&Message>, uid: u32, responses: &[Response]) -> bool
    ensures { result ≡ items.is_deleted (option_copied message.entry) uid responses.now }
{
    match message {
        Some(message) => has_deleted(&message.flags),
        None => !some_tells_undeleted(uid, responses),
    }
}

fn message_in<'a>(mirror: &'a Mirror, selected: &Option<Bytes>, uid: u32) -> Option<&'a Message>
    ensures { option_copied result ≡ items.in_selected mirror.now.mail (named_by mirror.now.mail selected.now) uid }
{
    let Some(name) = selected else {
        return None;
    };
    let Some(folder) = mirror.named(name.as_slice()) else {
        return None;
    };
    mirror.message(folder.number, uid)
}

fn deleted(rest: Rest, is: bool) -> ItemStage
    ensures { result ≡ items.deleted_stage rest.left rest.changed rest.done is }
{
    if is {
        rest.going()
    } else {
        ItemStage::Settled(Done::Not(SetError::Forbidden))
    }
}

// ---- LIST, and SELECT of what was made

fn listed(rest: Rest, is_there: bool) -> ItemStage
    ensures { (o : Option NumberedFolder) → is_some o ≡ is_there → result ≡ items.listed_stage rest.left rest.changed rest.done o }
{
    if is_there {
        return rest.going();
    }
    if rest.changed {
        ItemStage::Partly
    } else {
        ItemStage::Failing(Refusal::Lacks)
    }
}

fn made_folder(rest: Rest, tells: bool, number: Option<u64>) -> ItemStage
    ensures { (o : Option NumberedFolder) → option_map folder_number o ≡ number → result ≡ items.made_folder rest.left rest.changed tells o }
{
    match number {
        Some(number) if tells => Rest {
            left: rest.left,
            changed: rest.changed,
            done: Done::MadeMailbox { number },
        }
        .going(),
        _ => ItemStage::Failing(Refusal::Lacks),
    }
}

fn number_of(mirror: &Mirror, name: &[u8]) -> Option<u64>
    ensures { result ≡ option_map folder_number (named mirror.now.mail.folders name.now) }
{
    match mirror.named(name) {
        Some(folder) => Some(folder.number),
        None => None,
    }
}

// ---- the whole

/// What an OK to a step makes of the item.
fn obeyed(step: &Step, rest: Rest, heard: &Heard<'_>) -> ItemStage
    ensures { (before : Mail) → told_landing before heard.now.exchange.now ≡ heard.now.landing → before.next_mark ≡ heard.now.mark
        → result ≡ items.obeyed step.now rest.left rest.changed rest.done before heard.now.exchange.now heard.now.mirror.now.mail }
{
    let exchange = heard.exchange;
    let responses = exchange.responses.as_slice();
    match step {
        Step::Select { mark, .. } => selected(
            rest,
            tells_validity(responses),
            shows(heard.mirror, *mark),
        ),
        Step::Change(command) => changed(command, rest, heard),
        Step::Delete { uid } => deleted(
            rest,
            is_deleted(
                message_in(heard.mirror, &exchange.selected, *uid),
                *uid,
                responses,
            ),
        ),
        Step::Unselect | Step::Expunge { .. } => rest.going(),
        Step::List { name, .. } => listed(rest, number_of(heard.mirror, name.as_slice()).is_some()),
        Step::SelectMade { name } => made_folder(
            rest,
            tells_validity(responses),
            number_of(heard.mirror, name.as_slice()),
        ),
    }
}

/// What a completed exchange makes of an item.
pub fn stage_after(stage: ItemStage, heard: &Heard<'_>) -> ItemStage
    ensures { (before : Mail) → told_landing before heard.now.exchange.now ≡ heard.now.landing → before.next_mark ≡ heard.now.mark
        → result ≡ items.stage_after stage before heard.now.exchange.now heard.now.mirror.now.mail }
{
    let ItemStage::Doing {
        step,
        left,
        changed,
        done,
    } = stage
    else {
        return stage;
    };
    match heard.exchange.status {
        Status::Ok => {
            let changed = changed || is_changing(&heard.exchange.command);
            obeyed(
                &step,
                Rest {
                    left,
                    changed,
                    done,
                },
                heard,
            )
        }
        _ => refused(
            &step,
            Rest {
                left,
                changed,
                done,
            },
            heard.exchange,
        ),
    }
}
