// Touches at random, and the answers of a slow program that goes by the definition alone.
ghost use Rattle.std.specs.Prelude.{◌<◌, vec_len};

use crate::changes::touch;
use change_list::{ChangeList, Changes, Entry, Kind, SinceError};
use octets::Listed;
use std::alloc::{AllocError, Global};
use std::collections::BTreeSet;
use test_rows::first_number;

/// How many touches are kept.
const KEPT: usize = 8192;

/// The most ids of an answer.
const MOST: [Option<u64>; 4] = [None, Some(1), Some(2), Some(7)];

/// A list, and all its touches.
#[derive(Drop)]
struct Walk {
    list: ChangeList,
    touches: Vec<Entry>,
    /// The places at which each id was added and removed, the second the greatest where it never was.
    lives: Vec<(usize, usize)>,
    present: Vec<usize>,
    seed: u64,
    /// How many answers and refusals of the list are right.
    answers: u64,
    refusals: u64,
    alloc: Global,
}

/// The ids that are touched.
fn ids_of(alloc: Global, touches: &[Entry]) -> Result<BTreeSet<u64>, AllocError> {
    let mut ids = BTreeSet::new(alloc);
    for touch in touches {
        ids.insert(touch.id)?;
    }
    Ok(ids)
}

/// Whether there are updates, and all of them are of counts alone.
fn are_of_counts(taken: &[Entry], updated: &[u64]) -> bool {
    let each = taken
        .iter()
        .all(|touch| touch.counts_only || !updated.contains(&touch.id));
    each && !updated.is_empty()
}

/// Touches.
impl Walk {
    fn random(&mut self) -> usize {
        self.seed = self
            .seed
            .wrapping_mul(6364136223846793005)
            .wrapping_add(1442695040888963407);
        (self.seed >> 33) as usize
    }

    fn add(&mut self, place: usize) -> Result<(usize, Kind), AllocError> {
        let id = self.lives.len();
        self.present.push(id)?;
        self.lives.push((place, usize::MAX))?;
        Ok((id, Kind::Added))
    }

    fn remove(&mut self, at: usize, place: usize) -> (usize, Kind)
        requires { at < vec_len self.old.present }
    {
        let id = self.present.swap_remove(at);
        if let Some(life) = self.lives.get_mut(id) {
            life.1 = place;
        }
        (id, Kind::Removed)
    }

    /// Adds one id in eight, removes one in eight, and else changes one.
    fn touch(&mut self) -> Result<(), AllocError> {
        let chance = self.random();
        let place = self.touches.len().wrapping_add(1);
        let count = self.present.len();
        let (id, kind) = if count == 0 || chance % 8 == 0 {
            self.add(place)?
        } else if chance % 8 == 1 {
            self.remove(chance / 8 % count, place)
        } else {
            (self.present[chance / 8 % count], Kind::Changed)
        };
        let entry = Entry {
            id: id as u64,
            kind,
            counts_only: kind == Kind::Changed && chance / 8 % 4 < 3,
        };
        self.touches.push(entry)?;
        touch(&mut self.list, entry);
        Ok(())
    }
}

/// What the definition says.
impl Walk {
    fn is_there(&self, id: u64, place: usize) -> bool {
        match self.lives.get(id as usize) {
            Some((added, removed)) => *added <= place && place < *removed,
            None => false,
        }
    }

    /// Refuses a place whose later touches aren't all kept, and one that isn't come to.
    fn expect_kept(&self, place: usize) -> Result<(), SinceError> {
        let end = self.touches.len();
        let front = end.saturating_sub(KEPT);
        if place < front {
            let front = front as u64;
            return Err(SinceError::BeforeFront { front });
        }
        if end < place {
            let place = end as u64;
            return Err(SinceError::AfterEnd { place });
        }
        Ok(())
    }

    /// The touches after a place, up to the greatest place with at most `max` touched ids.
    fn taken(&self, place: usize, max: Option<u64>) -> Result<&[Entry], AllocError> {
        let after = self.touches.get(place..).unwrap_or(&[]);
        let Some(most) = max else {
            return Ok(after);
        };
        for count in 0..after.len() {
            if most < ids_of(self.alloc, &after[..count + 1])?.len() as u64 {
                return Ok(&after[..count]);
            }
        }
        Ok(after)
    }

    /// The touched ids of which this is so: whether they are there at the first place, and at the last.
    fn ids(
        &self,
        touched: &BTreeSet<u64>,
        places: (usize, usize),
        wanted: (bool, bool),
    ) -> Result<Listed<u64>, AllocError> {
        let mut ids = Vec::new(self.alloc);
        for id in touched {
            if (self.is_there(*id, places.0), self.is_there(*id, places.1)) == wanted {
                ids.push(*id)?;
            }
        }
        Ok(Listed::from_vec(ids))
    }

    /// What changed in these touches after a place.
    fn changes(&self, place: usize, taken: &[Entry]) -> Result<Changes, AllocError> {
        let touched = ids_of(self.alloc, taken)?;
        let places = (place, place.saturating_add(taken.len()));
        let updated = self.ids(&touched, places, (true, true))?;
        Ok(Changes {
            to: places.1 as u64,
            counts_only: are_of_counts(taken, updated.as_slice()),
            created: self.ids(&touched, places, (false, true))?,
            updated,
            destroyed: self.ids(&touched, places, (true, false))?,
        })
    }

    fn since(&self, place: usize, max: Option<u64>) -> Result<Changes, SinceError> {
        self.expect_kept(place)?;
        Ok(self.changes(place, self.taken(place, max)?)?)
    }

    /// The touched ids, and whether each was there at a place.
    fn presences(
        &self,
        touched: &BTreeSet<u64>,
        place: usize,
    ) -> Result<Listed<(u64, bool)>, AllocError> {
        let mut ids = Vec::new(self.alloc);
        for id in touched {
            ids.push((*id, self.is_there(*id, place)))?;
        }
        Ok(Listed::from_vec(ids))
    }

    fn touched(&self, place: usize) -> Result<Listed<(u64, bool)>, SinceError> {
        self.expect_kept(place)?;
        let touched = ids_of(self.alloc, self.taken(place, None)?)?;
        Ok(self.presences(&touched, place)?)
    }
}

/// Comparing.
impl Walk {
    fn count(&mut self, agrees: bool, answers: bool) {
        if agrees && answers {
            self.answers = self.answers.saturating_add(1);
        } else if agrees {
            self.refusals = self.refusals.saturating_add(1);
        }
    }

    /// Counts which answers of a place are those of the definition.
    fn compare(&mut self, place: usize) {
        for max in MOST.iter() {
            let told = self.list.since(place as u64, *max);
            self.count(told == self.since(place, *max), told.is_ok());
        }
        let told = self.list.touched(place as u64);
        self.count(told == self.touched(place), told.is_ok());
    }
}

/// Of `SEED STEP LAST COUNT ..`: so many touches, after which each place at such a step up to the last is asked of, then more
/// touches. Adds how many answers and refusals are those of the definition.
pub(crate) fn put_walk(alloc: Global, text: &str, out: &mut String) -> Result<(), AllocError> {
    let (seed, text) = first_number(text);
    let (step, text) = first_number(text);
    let (last, counts) = first_number(text);
    let mut walk = Walk {
        list: ChangeList::new(alloc)?,
        touches: Vec::new(alloc),
        lives: Vec::new(alloc),
        present: Vec::new(alloc),
        seed,
        answers: 0,
        refusals: 0,
        alloc,
    };
    for count in counts.split_whitespace() {
        for _ in 0..first_number(count).0 {
            walk.touch()?;
        }
        for at in 0..=last {
            walk.compare(at.saturating_mul(step) as usize);
        }
    }
    write!(
        out,
        " -> {} answers, {} refusals",
        walk.answers, walk.refusals
    )
}
