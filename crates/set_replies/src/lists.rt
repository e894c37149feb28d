// The lists of a reply: what each item came to (RFC 8620 section 5.3).
ghost use Rattle.std.specs.Prelude.{◌≡◌, ◌<◌, ◌++◌, ◌∷◌, [], IfOk, OnOk, map};
ghost use Rattle.serde_json.specs.Data.{string};
ghost use Rattle.change_list.specs.Advance.{row_at};
ghost use Rattle.mail_maps.specs.Serve.{mailbox_of};
ghost use Rattle.served_maps.specs.Past.{served};
ghost use Rattle.set_order.specs.reading.Items.{item_data};
ghost use Rattle.set_replies.specs.Emails.{row_of_mark};
ghost use Rattle.set_replies.specs.Lists as spec;
ghost use Rattle.set_replies.specs.Refusals.{refusal_data};
ghost use Rattle.set_replies.specs.reading.Items.{done_data};
ghost use Rattle.set_replies.specs.reading.Listing.{lists_data};
ghost use Rattle.set_replies.specs.reading.Types.{AreApart, served_in};
ghost use Rattle.set_replies.specs.reading.Whole.{AreWhole};

use crate::emails::{keywords_if_other, made_value};
use crate::refusals::refusal_value;
use jmap_arguments::{EMAIL_LETTER, MAILBOX_LETTER, id_text, id_value};
use mail_state::MailState;
use mailbox_objects::whole_mailbox;
use octets::Names;
use serde_json::{Map, Value, put};
use set_arguments::SetMethod;
use set_jobs::{Done, SetError};
use set_order::Item;
use std::alloc::{AllocError, Global};

/// The lists of a reply (RFC 8620 section 5.3).
#[derive(Drop)]
pub(crate) struct ReplyLists {
    pub(crate) created: Map<String, Value>,
    pub(crate) not_created: Map<String, Value>,
    pub(crate) updated: Map<String, Value>,
    pub(crate) not_updated: Map<String, Value>,
    pub(crate) destroyed: Vec<Value>,
    pub(crate) not_destroyed: Map<String, Value>,
}

/// What ids of a method's type begin with.
fn letter_of(method: SetMethod) -> char
    ensures letter { result ≡ spec.letter_of method }
    ensures ascii { result < 128 }
{
    match method {
        SetMethod::EmailSet | SetMethod::EmailImport => EMAIL_LETTER,
        SetMethod::MailboxSet => MAILBOX_LETTER,
    }
}

impl ReplyLists {
    fn new(alloc: Global) -> ReplyLists
        ensures { lists_data result ≡ spec.no_lists }
    {
        ReplyLists {
            created: Map::new(alloc),
            not_created: Map::new(alloc),
            updated: Map::new(alloc),
            not_updated: Map::new(alloc),
            destroyed: Vec::new(alloc),
            not_destroyed: Map::new(alloc),
        }
    }

    fn put_refusal(
        &mut self,
        alloc: Global,
        item: &Item<'_>,
        error: &SetError,
    ) -> Result<(), AllocError>
        ensures { OnOk result (lists_data self.new ≡ spec.refused_in (item_data item.now) (refusal_data error.now) (lists_data self.old)) }
    {
        let refusal = refusal_value(alloc, error)?;
        match item {
            Item::Create(creation) => put(&mut self.not_created, alloc, creation.key, refusal),
            Item::Circle(key) => put(&mut self.not_created, alloc, *key, refusal),
            Item::Update(change) => put(&mut self.not_updated, alloc, change.key, refusal),
            Item::Destroy(text) => put(&mut self.not_destroyed, alloc, *text, refusal),
        }
    }

    /// A message that was made. Where it is gone again it isn't found.
    fn put_message(
        &mut self,
        alloc: Global,
        state: &MailState,
        item: &Item<'_>,
        mark: u64,
        size: u64,
    ) -> Result<(), AllocError>
        ensures listed { AreApart state.now.rows.numbered.rows → OnOk result (lists_data self.new
            ≡ spec.made_in (item_data item.now) (spec.message_made size (row_of_mark state.now.rows.numbered.rows mark)) (lists_data self.old)) }
        ensures whole { AreWhole (lists_data self.old) → OnOk result (AreWhole (lists_data self.new)) }
    {
        match state.email_by_mark(mark) {
            None => self.put_refusal(alloc, item, &SetError::NotFound),
            Some(row) => {
                let value = made_value(alloc, size, row)?;
                put(&mut self.created, alloc, item.key(), value)
            }
        }
    }

    /// A Mailbox that was made. Where it is gone again it isn't found.
    fn put_mailbox(
        &mut self,
        alloc: Global,
        state: &MailState,
        item: &Item<'_>,
        number: u64,
    ) -> Result<(), AllocError>
        ensures { OnOk result (lists_data self.new
            ≡ spec.made_in (item_data item.now) (spec.mailbox_made number (row_at (served mailbox_of state.now.rows.mailboxes) number)) (lists_data self.old)) }
    {
        match state.mailbox(number) {
            None => self.put_refusal(alloc, item, &SetError::NotFound),
            Some(mailbox) => {
                let value = whole_mailbox(alloc, number, mailbox)?;
                put(&mut self.created, alloc, item.key(), value)
            }
        }
    }

    /// An update that patched no keywords: what another one of the same object says of them stands.
    fn put_unpatched(&mut self, alloc: Global, id: &str) -> Result<(), AllocError>
        ensures { OnOk result (lists_data self.new ≡ record (lists_data self.old) { updated = spec.put_updated id.now None (lists_data self.old).updated }) }
    {
        if self.updated.contains_key(id) {
            return Ok(());
        }
        put(&mut self.updated, alloc, id, Value::Null)
    }

    fn put_changed(
        &mut self,
        alloc: Global,
        method: SetMethod,
        state: &MailState,
        number: u64,
        asked: &Option<Names>,
    ) -> Result<(), AllocError>
        ensures { OnOk result (lists_data self.new ≡ record (lists_data self.old) {
          updated = spec.put_updated (spec.id_of method number) (spec.keywords_told asked.now (row_at state.now.rows.numbered.rows number)) (lists_data self.old).updated;
        }) }
    {
        let id = id_text(alloc, letter_of(method), number)?;
        match asked {
            None => self.put_unpatched(alloc, id.as_str()),
            Some(names) => {
                let value = keywords_if_other(alloc, names, state.email(number))?;
                put(&mut self.updated, alloc, id.as_str(), value)
            }
        }
    }

    fn put_gone(&mut self, alloc: Global, method: SetMethod, number: u64) -> Result<(), AllocError>
        ensures { OnOk result (lists_data self.new ≡ record (lists_data self.old) { destroyed = (lists_data self.old).destroyed ++ string (spec.id_of method number) ∷ [] }) }
    {
        let id = id_value(alloc, letter_of(method), number)?;
        self.destroyed.push(id)?;
        Ok(())
    }

    /// Lists an item by what it came to.
    fn put_item(
        &mut self,
        alloc: Global,
        method: SetMethod,
        state: &MailState,
        item: &Item<'_>,
        done: &Done,
    ) -> Result<(), AllocError>
        ensures listed { AreApart state.now.rows.numbered.rows → OnOk result (lists_data self.new
            ≡ spec.listed method (served_in state.now) (item_data item.now) done.now (lists_data self.old)) }
        ensures whole { AreWhole (lists_data self.old) → OnOk result (AreWhole (lists_data self.new)) }
    {
        match done {
            Done::Made { mark, size } => self.put_message(alloc, state, item, *mark, *size),
            Done::MadeMailbox { number } => self.put_mailbox(alloc, state, item, *number),
            Done::Changed { number, asked } => {
                self.put_changed(alloc, method, state, *number, asked)
            }
            Done::Gone { number } => self.put_gone(alloc, method, *number),
            Done::Not(error) => self.put_refusal(alloc, item, error),
        }
    }
}

/// The lists of these items, in order.
pub(crate) fn lists_of(
    alloc: Global,
    method: SetMethod,
    state: &MailState,
    done: &[(Item<'_>, Done)],
) -> Result<ReplyLists, AllocError>
    ensures listed { AreApart state.now.rows.numbered.rows → IfOk result (λ lists. lists_data lists ≡ spec.lists_of method (served_in state.now) (map done_data done.now)) }
    ensures whole { IfOk result (λ lists. AreWhole (lists_data lists)) }
{
    let mut lists = ReplyLists::new(alloc);
    for entry in done {
        lists.put_item(alloc, method, state, &entry.0, &entry.1)?;
    }
    Ok(lists)
}
