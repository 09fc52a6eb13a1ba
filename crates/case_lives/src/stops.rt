//! Lives that are stopped at each moment, or of which each disk call fails in turn: what is left, and which attempt had
//! no job yet.

use crate::calls::{
    calls_of, calls_until, left_behind, not_begun, opening, place_of_call, records_standing,
    writing_until,
};
use crate::plan::plain_site;
use crate::posts::{Sent, made_until, recorded_by};
use crate::records::Step;
use site_traits::{Choice, MemSite};
use std::alloc::{AllocError, Global};

/// What the lives before the one at hand did.
#[derive(Clone, Copy)]
pub struct Earlier {
    /// The jobs that there are.
    pub jobs: usize,
    /// The begins on the record of the same site.
    pub begins: usize,
    /// The disk calls on it.
    pub disk: usize,
}

impl Earlier {
    /// There was none.
    pub fn none() -> Earlier {
        Earlier {
            jobs: 0,
            begins: 0,
            disk: 0,
        }
    }

    /// What this site's record has.
    pub fn of(site: &MemSite) -> Earlier {
        let calls = calls_of(site);
        Earlier {
            jobs: site.jobs(),
            begins: calls.begins,
            disk: calls.disk,
        }
    }
}

/// A whole life, of these steps behind those.
pub struct Whole {
    /// The site behind it, with its record.
    pub site: MemSite,
    /// The steps of the lives before it.
    pub before: Vec<Step>,
    /// Its steps.
    pub steps: Vec<Step>,
    /// For each attempt that it begins, in order, its steps where that attempt had no job when it was stopped; none
    /// where no run goes on from such a stop.
    pub lost: Vec<Vec<Step>>,
    /// The lives before it.
    pub earlier: Earlier,
    /// The records that the file had before it.
    pub old_records: usize,
    /// Its posts.
    pub posts: Vec<Sent>,
    /// What it posted, each in a line.
    pub lines: Vec<u8>,
}

impl Drop for Whole {
    // Written out, so that the proof of a caller calls it and doesn't take the value apart at each of its ends.
    fn drop(self) {
        let Whole {
            site: _,
            before: _,
            steps: _,
            lost: _,
            earlier: _,
            old_records: _,
            posts: _,
            lines: _,
        } = self;
    }
}

impl Whole {
    /// A life in which nothing was done.
    pub fn none(alloc: Global) -> Result<Whole, AllocError> {
        Ok(Whole {
            site: plain_site(alloc, &[])?,
            before: Vec::new(alloc),
            steps: Vec::new(alloc),
            lost: Vec::new(alloc),
            earlier: Earlier::none(),
            old_records: 0,
            posts: Vec::new(alloc),
            lines: Vec::new(alloc),
        })
    }

    /// What a stop at this moment leaves with this choice.
    pub fn stopped(
        &self,
        alloc: Global,
        moment: usize,
        choice: Choice,
    ) -> Result<MemSite, AllocError> {
        self.site
            .stopped(alloc, moment.min(self.site.moment()), choice)
    }

    /// What is there of it behind a stop at this moment with this choice.
    pub fn stop(&self, moment: usize, choice: Choice) -> Stop {
        let calls = calls_until(&self.site, moment);
        let behind = calls.disk.checked_sub(opening(&self.site));
        let records = left_behind(writing_until(&self.site, moment), choice);
        let posts = match moment.checked_sub(1) {
            Some(last) => made_until(&self.posts, last),
            None => 0,
        };
        self.behind(moment, behind, records, calls.begins, posts)
    }

    /// What is there of it where this disk call of its own, from 0, fails, and so many begins were made.
    pub fn fault(&self, call: usize, begins: usize) -> Stop {
        let behind = call.checked_sub(opening(&self.site));
        let place = place_of_call(&self.site, call);
        let records = records_standing(writing_until(&self.site, place));
        let posts = made_until(&self.posts, place);
        self.behind(call, behind, records, begins, posts)
    }

    /// So many of its records, begins and posts.
    fn behind(
        &self,
        place: usize,
        calls: Option<usize>,
        records: usize,
        begins: usize,
        posts: usize,
    ) -> Stop {
        Stop {
            place,
            act: 0,
            calls,
            records,
            begins,
            posts,
            lost: not_begun(&self.steps, records, begins),
        }
    }

    /// How many of its posts are recorded behind this stop.
    pub fn recorded_posts(&self, stop: Stop) -> usize {
        recorded_by(&self.posts, stop.records)
    }

    /// The steps of it and of the lives before it, up to so many of its own.
    pub fn steps_to(&self, alloc: Global, records: usize) -> Result<Vec<Step>, AllocError> {
        self.steps_with(alloc, self.steps.get(..records).unwrap_or(&self.steps))
    }

    /// All steps of it and of the lives before it, where this attempt of it had no job when it was stopped, or each had
    /// one: then a look tells that, and the change is attempted once more. There are none where no steps say what comes
    /// of that attempt.
    pub fn steps_again(
        &self,
        alloc: Global,
        lost: Option<usize>,
    ) -> Result<Option<Vec<Step>>, AllocError> {
        match lost {
            None => Ok(Some(self.steps_with(alloc, &self.steps)?)),
            Some(attempt) => match self.lost.get(attempt) {
                Some(steps) => Ok(Some(self.steps_with(alloc, steps)?)),
                None => Ok(None),
            },
        }
    }

    /// The steps of the lives before it, and these.
    fn steps_with(&self, alloc: Global, steps: &[Step]) -> Result<Vec<Step>, AllocError> {
        let mut all = self.before.to_vec(alloc)?;
        all.extend_from_slice(steps)?;
        Ok(all)
    }
}

/// What is there of a whole life behind a stop, or behind a disk call that failed.
#[derive(Clone, Copy)]
pub struct Stop {
    /// The moment, the disk call of the life, from 0, or the length of the front.
    pub place: usize,
    /// The act that is played there, from 0.
    pub act: usize,
    /// The disk calls behind its opening; none where the journal wasn't opened.
    pub calls: Option<usize>,
    /// Its records.
    pub records: usize,
    /// Its begins.
    pub begins: usize,
    /// Its posts; the last may have no record yet.
    pub posts: usize,
    /// The attempt of the life, by its number from 0, that has no job yet.
    pub lost: Option<usize>,
}

impl Stop {
    /// None.
    pub fn none() -> Stop {
        Stop {
            place: 0,
            act: 0,
            calls: None,
            records: 0,
            begins: 0,
            posts: 0,
            lost: None,
        }
    }
}
