//! The calls on a site, and which records of a life a stop or a fault among them leaves.

use crate::records::{At, Step};
use site_traits::{Choice, MemSite, SiteCall};

/// The disk calls of one record: a write and a sync of it, and a write and a sync of its gate.
const CALLS: usize = 4;

/// What is on a site's record: how many calls on the disk, begins, looks and aborts.
#[derive(Clone, Copy)]
pub struct Calls {
    /// Calls on the disk.
    pub disk: usize,
    /// Writes, cuts and syncs among them.
    pub writing: usize,
    /// Begins.
    pub begins: usize,
    /// Looks.
    pub looks: usize,
    /// Aborts.
    pub aborts: usize,
}

/// The calls on record up to this moment.
pub fn calls_until(site: &MemSite, moment: usize) -> Calls {
    let mut calls = Calls {
        disk: 0,
        writing: 0,
        begins: 0,
        looks: 0,
        aborts: 0,
    };
    for place in 0..moment.min(site.moment()) {
        match site.call(place) {
            SiteCall::Began { .. } => calls.begins = calls.begins.saturating_add(1),
            SiteCall::Looked { .. } => calls.looks = calls.looks.saturating_add(1),
            SiteCall::Aborted { .. } => calls.aborts = calls.aborts.saturating_add(1),
            SiteCall::Length | SiteCall::Read { .. } => calls.disk = calls.disk.saturating_add(1),
            _ => {
                calls.disk = calls.disk.saturating_add(1);
                calls.writing = calls.writing.saturating_add(1);
            }
        }
    }
    calls
}

/// All calls on record.
pub fn calls_of(site: &MemSite) -> Calls {
    calls_until(site, site.moment())
}

/// The calls that open the journal in a site's first life: those before the first that writes, or that is about a job.
pub fn opening(site: &MemSite) -> usize {
    for place in 0..site.moment() {
        match site.call(place) {
            SiteCall::Length | SiteCall::Read { .. } | SiteCall::Synced => {}
            _ => return place,
        }
    }
    site.moment()
}

/// The writes and syncs up to this moment behind the calls that open the journal.
pub fn writing_until(site: &MemSite, moment: usize) -> usize {
    let before = calls_until(site, opening(site)).writing;
    calls_until(site, moment).writing.saturating_sub(before)
}

/// The place on record of this call on the disk, from 0 over these; the end, where there are fewer.
pub fn place_of_call(site: &MemSite, call: usize) -> usize {
    let mut left = call;
    for place in 0..site.moment() {
        match site.call(place) {
            SiteCall::Began { .. } | SiteCall::Looked { .. } | SiteCall::Aborted { .. } => {}
            _ if left == 0 => return place,
            _ => left = left.saturating_sub(1),
        }
    }
    site.moment()
}

/// How many of a life's records a stop leaves behind so many writes and syncs of them, where what isn't synced is left
/// like this: those whose gates are open on the disk.
pub fn left_behind(calls: usize, choice: Choice) -> usize {
    match choice {
        Choice::New => records_standing(calls),
        Choice::Old | Choice::Torn => calls / CALLS,
    }
}

/// How many of a life's records stand behind so many writes and syncs of them: a record stands once its gate was
/// written.
pub fn records_standing(calls: usize) -> usize {
    let whole = calls / CALLS;
    if calls % CALLS == 3 {
        return whole.saturating_add(1);
    }
    whole
}

/// How many attempts these steps begin.
fn attempts(steps: &[Step]) -> usize {
    let mut count: usize = 0;
    for step in steps {
        if let Step::Forward(_, _, At::Intent) | Step::Undo(_, _, At::Intent) = step {
            count = count.saturating_add(1);
        }
    }
    count
}

/// The attempt, by its number from 0 among those of these steps, that is the last of so many records, and has no job
/// yet, where so many jobs were begun.
pub fn not_begun(steps: &[Step], records: usize, begins: usize) -> Option<usize> {
    let some = steps.get(..records)?;
    let last = some.last()?;
    let begun = attempts(some);
    match last {
        Step::Forward(_, _, At::Intent) | Step::Undo(_, _, At::Intent) if begun > begins => {
            begun.checked_sub(1)
        }
        _ => None,
    }
}
