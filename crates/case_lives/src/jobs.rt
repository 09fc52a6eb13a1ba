//! Jobs and the calls on them, as runs spell them and as they are told.
//!
//! An attempt is told by its tag: the numbers of the occurrence, the change and the attempt, and `forward` or `undo`.

use lcm_events::{Tag, Way};
use site_traits::{Arrival, Found, MemSite, Phase, SiteCall};
use std::alloc::{AllocError, Global};

/// The word of a way.
fn way_word(way: Way) -> &'static str {
    match way {
        Way::Forward => "forward",
        Way::Undo => "undo",
    }
}

/// An attempt by its tag: `OCCURRENCE CHANGE ATTEMPT WAY`.
pub fn tag_text(alloc: Global, tag: Tag) -> Result<String, AllocError> {
    let (occurrence, change, attempt) = (tag.occ, tag.change, tag.attempt);
    let way = way_word(tag.way);
    format!(in alloc; "{occurrence} {change} {attempt} {way}")
}

/// How a job stands: `running`, `done NAME`, `broken CODE` or `aborted`.
fn phase_text(alloc: Global, phase: Phase) -> Result<String, AllocError> {
    match phase {
        Phase::Running => String::from_str(alloc, "running"),
        Phase::Done(name) => format!(in alloc; "done {}", name.as_str()),
        Phase::Broken(code) => format!(in alloc; "broken {code}"),
        Phase::Aborted => String::from_str(alloc, "aborted"),
    }
}

/// The job at this place, from 0: the tag of its attempt, and how it stands; `no job` where there is none.
pub fn job_text(alloc: Global, site: &MemSite, place: usize) -> Result<String, AllocError> {
    if place >= site.jobs() {
        return String::from_str(alloc, "no job");
    }
    let (tag, _, phase) = site.job(place);
    let (tag, phase) = (tag_text(alloc, tag)?, phase_text(alloc, phase)?);
    format!(in alloc; "{tag}, {phase}")
}

/// What came of a begin: `taken`, `arrived` and `lost` where the call failed, `refused CODE`.
fn arrival_text(alloc: Global, came: Arrival) -> Result<String, AllocError> {
    match came {
        Arrival::Taken => String::from_str(alloc, "taken"),
        Arrival::FailedArrived => String::from_str(alloc, "arrived"),
        Arrival::FailedLost => String::from_str(alloc, "lost"),
        Arrival::Refused(code) => format!(in alloc; "refused {code}"),
    }
}

/// What a look found: `absent`, `running`, `done` and the job's place from 1, `broken CODE`, `aborted`.
fn found_text(alloc: Global, found: Found) -> Result<String, AllocError> {
    match found {
        Found::Absent => String::from_str(alloc, "absent"),
        Found::Running => String::from_str(alloc, "running"),
        Found::Done(place) => format!(in alloc; "done {place}"),
        Found::Broken(code) => format!(in alloc; "broken {code}"),
        Found::Aborted => String::from_str(alloc, "aborted"),
    }
}

/// Puts the line of a call on a job; nothing for one on the disk.
fn put_call(alloc: Global, text: &mut String, call: SiteCall) -> Result<(), AllocError> {
    let line = match call {
        SiteCall::Began { tag, came } => {
            let (tag, came) = (tag_text(alloc, tag)?, arrival_text(alloc, came)?);
            format!(in alloc; "begin {tag}: {came}\n")?
        }
        SiteCall::Looked { tag, found } => {
            let (tag, found) = (tag_text(alloc, tag)?, found_text(alloc, found)?);
            format!(in alloc; "look {tag}: {found}\n")?
        }
        SiteCall::Aborted { tag } => {
            let tag = tag_text(alloc, tag)?;
            format!(in alloc; "abort {tag}\n")?
        }
        _ => return Ok(()),
    };
    text.push_str(&line)
}

/// The calls on jobs that came through since the site was made, each a line: `begin`, `look` or `abort`, the tag, and
/// what came of it.
pub fn calls_on_jobs(alloc: Global, site: &MemSite) -> Result<String, AllocError> {
    let mut text = String::new(alloc);
    for place in 0..site.moment() {
        put_call(alloc, &mut text, site.call(place))?;
    }
    Ok(text)
}
