//! Whether the jobs of a site agree with what is recorded of their attempts, and what stands by either.

use crate::differences::{ActFault, differs};
use crate::jobs::job_text;
use crate::records::{At, Step};
use lcm_events::{Tag, Way};
use site_traits::{MemSite, Phase};
use std::alloc::{AllocError, Global};

/// The tag of this attempt of occurrence 1.
fn tag_of(way: Way, change: u16, attempt: u32) -> Tag {
    Tag {
        occ: 1,
        change,
        attempt,
        way,
    }
}

/// The attempt that a step is about, and what it says of it.
fn attempt_of(step: Step) -> Option<(Tag, At)> {
    match step {
        Step::Forward(change, attempt, at) => Some((tag_of(Way::Forward, change, attempt), at)),
        Step::Undo(change, attempt, at) => Some((tag_of(Way::Undo, change, attempt), at)),
        _ => None,
    }
}

/// The place, from this one on, of the step that says that this attempt is about to begin.
fn intent_from(steps: &[Step], from: usize, tag: Tag) -> Option<usize> {
    let intent = Some((tag, At::Intent));
    for place in from..steps.len() {
        if attempt_of(steps[place]) == intent {
            return Some(place);
        }
    }
    None
}

/// How this attempt ended; none while it is open.
fn end_of(steps: &[Step], tag: Tag) -> Option<At> {
    let mut end = None;
    for step in steps {
        if let Some((of, at)) = attempt_of(*step) {
            if of == tag && at != At::Intent && at != At::CallFailed {
                end = Some(at);
            }
        }
    }
    end
}

/// Whether this is the name of the resource of the job at this place, from 1.
fn is_named(alloc: Global, name: &[u8], place: u16) -> Result<bool, AllocError> {
    let resource = format!(in alloc; "r{place}")?;
    Ok(name == resource.as_bytes())
}

/// Whether the job at this place, from 1, stands in this phase where its attempt has ended so.
fn has_ended(alloc: Global, phase: &Phase, place: usize, end: At) -> Result<bool, AllocError> {
    match (phase, end) {
        (Phase::Done(name), At::Done(job)) => {
            Ok(usize::from(job) == place && is_named(alloc, name.as_bytes(), job)?)
        }
        (Phase::Broken(code), At::Broken(told)) => Ok(*code == told),
        (Phase::Aborted, At::Aborted) => Ok(true),
        _ => Ok(false),
    }
}

/// How many of the attempts that these steps begin are settled Done or Aborted, and so have a job.
fn with_jobs(steps: &[Step]) -> usize {
    let mut count: usize = 0;
    for step in steps {
        if let Some((_, At::Done(_) | At::Aborted)) = attempt_of(*step) {
            count = count.saturating_add(1);
        }
    }
    count
}

/// Whether this job, at this place from 0, has its intent among the steps from this place on and stands as its attempt
/// ended: the place behind that intent, and whether the attempt was settled Done or Aborted; none where it has not or
/// does not.
fn follows(
    alloc: Global,
    site: &MemSite,
    steps: &[Step],
    place: usize,
    from: usize,
) -> Result<Option<(usize, bool)>, AllocError> {
    if place >= site.jobs() {
        return Ok(None);
    }
    let (tag, _, phase) = site.job(place);
    let Some(intent) = intent_from(steps, from, tag) else {
        return Ok(None);
    };
    let behind = intent.saturating_add(1);
    match end_of(steps, tag) {
        None => Ok(Some((behind, false))),
        Some(end) if has_ended(alloc, &phase, place.saturating_add(1), end)? => {
            Ok(Some((behind, !matches!(end, At::Broken(_)))))
        }
        Some(_) => Ok(None),
    }
}

/// The job at this place, from 0, is wanted behind its intent and as its attempt ended.
fn unsound(alloc: Global, site: &MemSite, place: usize) -> Result<ActFault, AllocError> {
    let number = place.saturating_add(1);
    let came = job_text(alloc, site, place)?;
    Ok(differs(
        format!(in alloc; "job {number} behind its intent, and as its attempt ended")?,
        format!(in alloc; "job {number}: {came}")?,
    ))
}

/// All jobs have their intents among the steps, in their order, and stand as their attempts ended, and each attempt
/// that was settled Done or Aborted has its job; or the first that is otherwise is told.
fn are_sound(alloc: Global, site: &MemSite, steps: &[Step]) -> Result<(), ActFault> {
    let mut from = 0;
    let mut settled: usize = 0;
    for place in 0..site.jobs() {
        match follows(alloc, site, steps, place, from)? {
            Some((behind, is_settled)) => {
                from = behind;
                settled = settled.saturating_add(usize::from(is_settled));
            }
            None => return Err(unsound(alloc, site, place)?),
        }
    }
    let wanted = with_jobs(steps);
    if settled != wanted {
        return Err(differs(
            format!(in alloc; "{wanted} jobs of attempts that ended done or aborted")?,
            format!(in alloc; "{settled} jobs of attempts that ended done or aborted")?,
        ));
    }
    Ok(())
}

/// One more than this change, or that number where it is greater.
fn above(change: u16, number: u16) -> u16 {
    number.max(change.saturating_add(1))
}

/// One more than the greatest change that the jobs of this site are for; 0 where there is none.
fn changes_of_jobs(site: &MemSite) -> u16 {
    let mut number = 0;
    for place in 0..site.jobs() {
        let (tag, _, _) = site.job(place);
        number = above(tag.change, number);
    }
    number
}

/// One more than the greatest change that these steps attempt; 0 where there is none.
fn changes_of_steps(steps: &[Step]) -> u16 {
    let mut number = 0;
    for step in steps {
        if let Some((tag, _)) = attempt_of(*step) {
            number = above(tag.change, number);
        }
    }
    number
}

/// How many jobs of this change in this way are done, whether that is recorded or not.
fn jobs_done(site: &MemSite, change: u16, way: Way) -> usize {
    let mut count: usize = 0;
    for place in 0..site.jobs() {
        let (tag, _, phase) = site.job(place);
        if tag.change == change && tag.way == way && matches!(phase, Phase::Done(_)) {
            count = count.saturating_add(1);
        }
    }
    count
}

/// Whether an attempt that these steps leave open, at this change in this way, has a job that is done.
fn open_is_done(site: &MemSite, steps: &[Step], change: u16, way: Way) -> bool {
    for place in 0..site.jobs() {
        let (tag, _, phase) = site.job(place);
        let is_of = tag.change == change && tag.way == way;
        if is_of && end_of(steps, tag).is_none() && matches!(phase, Phase::Done(_)) {
            return true;
        }
    }
    false
}

/// How many attempts at this change in this way are settled Done.
fn settled_done(steps: &[Step], change: u16, way: Way) -> usize {
    let mut count: usize = 0;
    for step in steps {
        if let Some((tag, At::Done(_))) = attempt_of(*step) {
            if tag.change == change && tag.way == way {
                count = count.saturating_add(1);
            }
        }
    }
    count
}

/// How many attempts at this change in this way are settled Done, and the open one where its job is done.
fn done_by(site: &MemSite, steps: &[Step], change: u16, way: Way) -> usize {
    let open = usize::from(open_is_done(site, steps, change, way));
    settled_done(steps, change, way).saturating_add(open)
}

/// The done jobs of this change are the attempts settled Done, and the open one where its job is done; and it stands at
/// most once. Else both are told.
fn stands_by_its_net(
    alloc: Global,
    site: &MemSite,
    steps: &[Step],
    change: u16,
) -> Result<(), ActFault> {
    let made = done_by(site, steps, change, Way::Forward);
    let undone = done_by(site, steps, change, Way::Undo);
    let made_by_jobs = jobs_done(site, change, Way::Forward);
    let undone_by_jobs = jobs_done(site, change, Way::Undo);
    let is_once = made == undone || made == undone.saturating_add(1);
    if made_by_jobs == made && undone_by_jobs == undone && is_once {
        return Ok(());
    }
    Err(differs(
        format!(in alloc;
            "change {change}: made {made} times, undone {undone}, standing at most once"
        )?,
        format!(in alloc; "change {change}: made {made_by_jobs} times, undone {undone_by_jobs}")?,
    ))
}

/// The jobs of this site agree with these steps: each has its intent and stands as its attempt ended, and of each
/// change there stands what is made by the steps, or by these and the open attempt whose job is done. Else the first
/// change or job that doesn't is told.
pub fn agrees(alloc: Global, site: &MemSite, steps: &[Step]) -> Result<(), ActFault> {
    for change in 0..changes_of_jobs(site).max(changes_of_steps(steps)) {
        stands_by_its_net(alloc, site, steps, change)?;
    }
    are_sound(alloc, site, steps)
}

/// How many changes stand by the done jobs of this site.
pub fn changes_standing(site: &MemSite) -> usize {
    let mut count: usize = 0;
    for change in 0..changes_of_jobs(site) {
        let made = jobs_done(site, change, Way::Forward);
        if made > jobs_done(site, change, Way::Undo) {
            count = count.saturating_add(1);
        }
    }
    count
}

/// The change that the job at this place, from 0, is for, where it is done.
pub fn change_done(site: &MemSite, place: usize) -> Option<u64> {
    if place >= site.jobs() {
        return None;
    }
    let (tag, _, phase) = site.job(place);
    match phase {
        Phase::Done(_) => Some(u64::from(tag.change)),
        _ => None,
    }
}
