// A query, its earlier lists, and what came of its answers.
use crate::counts::Counts;
use crate::kind::Kind;
use crate::lists::{AnsweredList, changes_of, is_between, is_too_old, list_of, spliced};
use jmap_arguments::MethodError;
use mail_state::MailState;
use serde_json::{Value, put};
use std::alloc::{AllocError, Global};

/// A query.
#[derive(Drop)]
pub(crate) struct Query {
    kind: Kind,
    /// The arguments, as they are written.
    text: String,
    /// The arguments of the query.
    asked: Value,
    /// Those of its queryChanges.
    changes: Value,
    /// A list for each term.
    earlier: Vec<AnsweredList>,
    pub(crate) counts: Counts,
    alloc: Global,
}

/// Puts the state since which changes are asked, and how many are allowed, where so many are.
fn put_since(
    arguments: &mut Value,
    alloc: Global,
    since: &str,
    most: Option<u64>,
) -> Result<(), AllocError> {
    let Some(members) = arguments.as_object_mut() else {
        return Ok(());
    };
    let most = match most {
        Some(most) => Value::from(most),
        None => Value::Null,
    };
    put(members, alloc, "maxChanges", most)?;
    put(
        members,
        alloc,
        "sinceQueryState",
        Value::try_from_str(alloc, since)?,
    )
}

/// The value of a text, which is null where the text is no JSON.
fn value_of(alloc: Global, text: &str) -> Value {
    Value::from_str(alloc, text).unwrap_or(Value::Null)
}

impl Query {
    pub(crate) fn new(alloc: Global, kind: Kind, text: &str) -> Result<Query, AllocError> {
        Ok(Query {
            kind,
            text: String::from_str(alloc, text)?,
            asked: value_of(alloc, text),
            changes: value_of(alloc, text),
            earlier: Vec::new(alloc),
            counts: Counts::none(),
            alloc,
        })
    }

    /// The list in this state. None where there is no answer, or where it doesn't say whether changes can be calculated.
    fn list(&self, state: &MailState) -> Result<Option<AnsweredList>, AllocError> {
        let Ok(answer) = self.kind.query(self.alloc, state, &self.asked) else {
            return Ok(None);
        };
        let told = answer.get("canCalculateChanges").and_then(Value::as_bool);
        if told != Some(self.kind != Kind::Threads) {
            return Ok(None);
        }
        Ok(Some(list_of(self.alloc, &answer, self.kind.letter())?))
    }

    /// What is answered to what changed since a state, where so many changes are allowed.
    fn ask(
        &mut self,
        state: &MailState,
        slot: usize,
        most: Option<u64>,
    ) -> Result<Value, MethodError> {
        let since = self.earlier.get(slot).map_or("", |list| &list.state);
        put_since(&mut self.changes, self.alloc, since, most)?;
        self.kind.query_changes(self.alloc, state, &self.changes)
    }

    /// Whether the answer makes the present list of an earlier one.
    fn splices(
        &mut self,
        slot: usize,
        answer: &Value,
        present: &AnsweredList,
    ) -> Result<bool, AllocError> {
        let Some(earlier) = self.earlier.get(slot) else {
            return Ok(false);
        };
        let changes = changes_of(self.alloc, answer, self.kind.letter())?;
        let list = spliced(self.alloc, &earlier.ids, &changes)?;
        let is_right = list.map_or(false, |list| list == present.ids)
            && is_between(answer, &earlier.state, &present.state);
        if is_right {
            self.counts.add(&Counts {
                right: 1,
                changed: u64::from(earlier.ids != present.ids),
                removed: changes.removed.len() as u64,
                added: changes.added.len() as u64,
                ..Counts::none()
            });
        }
        Ok(is_right)
    }

    /// Whether as many changes as are answered may be allowed, and one less may not. None or one are left out, since at least one
    /// has to be allowed.
    fn is_bounded(
        &mut self,
        state: &MailState,
        slot: usize,
        answer: &Value,
    ) -> Result<bool, AllocError> {
        let changes = changes_of(self.alloc, answer, self.kind.letter())?;
        let count = changes.removed.len() as u64;
        let count = count.saturating_add(changes.added.len() as u64);
        if count < 2 {
            return Ok(true);
        }
        let is_answered = self.ask(state, slot, Some(count)).is_ok();
        let refusal = self.ask(state, slot, Some(count - 1)).err();
        let is_refused = refusal == Some(MethodError::TooManyChanges);
        self.counts.many = self.counts.many.saturating_add(u64::from(is_refused));
        Ok(is_answered && is_refused)
    }

    /// Whether what changed since the list of a slot is answered as it has to be.
    fn is_right(
        &mut self,
        state: &MailState,
        slot: usize,
        present: &AnsweredList,
        is_bounded: bool,
    ) -> Result<bool, AllocError> {
        let since = self.earlier.get(slot).map_or("", |list| &list.state);
        let is_old = is_too_old(since, &present.state);
        match self.ask(state, slot, None) {
            Ok(answer) => Ok(
                self.kind != Kind::Threads
                    && !is_old
                    && self.splices(slot, &answer, present)?
                    && (!is_bounded || self.is_bounded(state, slot, &answer)?),
            ),
            Err(MethodError::CannotCalculateChanges) => {
                let threads = u64::from(self.kind == Kind::Threads);
                let old = u64::from(is_old && self.kind != Kind::Threads);
                self.counts.add(&Counts {
                    threads,
                    old,
                    ..Counts::none()
                });
                Ok(threads != old)
            }
            Err(_) => Ok(false),
        }
    }

    /// Counts what is wrong, and adds the first such.
    fn put_wrong(&mut self, at: u64, slot: usize, out: &mut String) -> Result<(), AllocError> {
        if self.counts.wrong == 0 {
            writeln!(out, "wrong in step {at}, list {slot}: {}", self.text)?;
        }
        self.counts.wrong = self.counts.wrong.saturating_add(1);
        Ok(())
    }

    /// Keeps the list in each slot whose term ends with this step.
    fn keep(&mut self, terms: &[u64], at: u64, present: &AnsweredList) -> Result<(), AllocError> {
        for (slot, term) in terms.iter().enumerate() {
            if at.checked_rem(*term) == Some(0) {
                let kept = present.copy()?;
                match self.earlier.get_mut(slot) {
                    Some(list) => *list = kept,
                    None => self.earlier.push(kept)?,
                }
            }
        }
        Ok(())
    }

    /// Asks for the list, and then what changed since so many of the earlier ones, in turn; keeps the list where it is due.
    pub(crate) fn step(
        &mut self,
        state: &MailState,
        terms: &[u64],
        at: u64,
        times: u64,
        out: &mut String,
    ) -> Result<(), AllocError> {
        let Some(present) = self.list(state)? else {
            return self.put_wrong(at, 0, out);
        };
        let first = at.saturating_add(at / 20).saturating_mul(times);
        for time in 0..times {
            let turn = first.saturating_add(time) as usize;
            let slot = turn.checked_rem(terms.len()).unwrap_or(0);
            if !self.is_right(state, slot, &present, at % 7 == 0)? {
                self.put_wrong(at, slot, out)?;
            }
        }
        self.keep(terms, at, &present)
    }

    /// Adds the query, and what came of it.
    pub(crate) fn put(&self, out: &mut String) -> Result<(), AllocError> {
        write!(out, "{} ->", self.text)?;
        self.counts.put(out)
    }
}
