//! Acts that prepare a command: texts, the sites, the connections and the answers of the outside.

use crate::objects::{connection, put_piece};
use crate::stage::Stage;
use case_lives::{CaseFault, behind, code, count, entries, front_of, number, part, small, word};
use lcm_events::Role;
use serde_json::Value;
use site_traits::{Arrival, DoorPlan, GrantPlan, JobEnd, JobPlan, PostPlan};
use std::alloc::{AllocError, Global};
use std::mem;
use vnfm_base::{Bytes, Line};

/// A begin that is taken, whose job is done at the first look and can be aborted.
const TAKEN: JobPlan = JobPlan {
    arrival: Arrival::Taken,
    looks: 0,
    end: JobEnd::Done,
    abortable: true,
};

/// The connection with these bytes in two pieces.
fn in_two(alloc: Global, front: &[u8], back: &[u8]) -> Result<DoorPlan, AllocError> {
    let mut pieces = Vec::new(alloc);
    put_piece(alloc, &mut pieces, front)?;
    put_piece(alloc, &mut pieces, back)?;
    Ok(DoorPlan::Conn {
        role: Role::Orchestrator,
        pieces,
        failing_read: None,
        failing_write: None,
    })
}

/// The number of the call that fails, where it isn't 0.
fn failing(number: usize) -> Option<usize> {
    if number == 0 { None } else { Some(number) }
}

/// The location that is told; none where the text is empty, or no line.
fn location_of(alloc: Global, text: &str) -> Option<Line> {
    if text.is_empty() {
        return None;
    }
    Line::of(alloc, text.as_bytes()).ok()
}

/// Changes what comes of a begin by this word, whose number stands behind it.
fn change_plan(
    plan: &mut JobPlan,
    words: &[Value],
    place: usize,
    word: &str,
) -> Result<(), CaseFault> {
    let next = place.saturating_add(1);
    match word {
        "taken" => {}
        "lost" => plan.arrival = Arrival::FailedLost,
        "arrived" => plan.arrival = Arrival::FailedArrived,
        "refused" => plan.arrival = Arrival::Refused(code(words, next)?),
        "broken" => plan.end = JobEnd::Broken(code(words, next)?),
        "looks" => plan.looks = small(words, next)?,
        "firm" => plan.abortable = false,
        _ => return Err(CaseFault::Spelling),
    }
    Ok(())
}

/// What comes of a begin: the words `taken`, `lost`, `arrived` and `refused` with a code say how it comes out; `looks`
/// with a number how many looks find its job running, `broken` with a code how that ends, and `firm` that it can't be
/// aborted.
fn job_plan(words: &[Value]) -> Result<JobPlan, CaseFault> {
    let mut plan = TAKEN;
    for place in 0..words.len() {
        if let Some(word) = words[place].as_str() {
            change_plan(&mut plan, words, place, word)?;
        }
    }
    Ok(plan)
}

/// What a post is answered: the status at this place of an act, or nothing where `fail` stands there.
fn receipt(act: &[Value], place: usize) -> Result<PostPlan, CaseFault> {
    match word(act, place) {
        Ok("fail") => Ok(PostPlan::Fail),
        _ => Ok(PostPlan::Status(small(act, place)?)),
    }
}

impl Stage {
    /// `["let", NAME, TEXT]`: the text has that name.
    pub fn name_text(&mut self, alloc: Global, act: &[Value]) -> Result<(), CaseFault> {
        let (name, value) = (word(act, 1)?, part(act, 2)?);
        let text = self.names.text(alloc, value)?;
        Ok(self.names.put(alloc, name, text)?)
    }

    /// `["keep", NAME]`: the site's file has that name.
    pub fn keep(&mut self, alloc: Global, act: &[Value]) -> Result<(), CaseFault> {
        let name = word(act, 1)?;
        let file = self.site.file().to_vec(alloc)?;
        Ok(self.names.put(alloc, name, file)?)
    }

    /// `["base"]`: steps are compared behind the file as it is now.
    pub fn take_base(&mut self, alloc: Global) -> Result<(), CaseFault> {
        self.base = self.site.file().to_vec(alloc)?;
        Ok(())
    }

    /// `["keep records", NAME]`: the site's file up to its closed gate has that name.
    pub fn keep_records(&mut self, alloc: Global, act: &[Value]) -> Result<(), CaseFault> {
        let name = word(act, 1)?;
        let records = front_of(self.site.file()).to_vec(alloc)?;
        Ok(self.names.put(alloc, name, records)?)
    }

    /// `["work", N, PLAN..]`: what comes of the begins on the next site: N are taken, and those behind them come out by
    /// these plans.
    pub fn plan_work(&mut self, alloc: Global, act: &[Value]) -> Result<(), CaseFault> {
        let taken = number(act, 1)?;
        self.plan.work = Vec::new(alloc);
        for _ in 0..taken {
            self.plan_begin(TAKEN)?;
        }
        for plan in behind(act, 2) {
            self.plan_begin(job_plan(entries(plan)?)?)?;
        }
        Ok(())
    }

    /// Plans what comes of the begin on the next site that is behind those planned before.
    fn plan_begin(&mut self, plan: JobPlan) -> Result<(), CaseFault> {
        self.plan.work.push(plan)?;
        Ok(())
    }

    /// `["fault", N..]`: on the next site the disk calls of these numbers, from 1, fail.
    pub fn plan_faults(&mut self, alloc: Global, act: &[Value]) -> Result<(), CaseFault> {
        self.plan.failing = Vec::new(alloc);
        for place in 1..act.len() {
            self.plan.failing.push(number(act, place)?)?;
        }
        Ok(())
    }

    /// `["site", TEXT]`: a site with this file, by the plan.
    pub fn make_site(&mut self, alloc: Global, act: &[Value]) -> Result<(), CaseFault> {
        self.base = self.names.text(alloc, part(act, 1)?)?;
        self.site = self.plan.site(alloc, &self.base)?;
        Ok(())
    }

    /// `["spare", TEXT]`: the site of the file to which a journal is migrated has this file, by the plan. Where no act
    /// says so, a run begins with one of an empty file, on which each call comes through.
    pub fn make_spare(&mut self, alloc: Global, act: &[Value]) -> Result<(), CaseFault> {
        let file = self.names.text(alloc, part(act, 1)?)?;
        self.spare = self.plan.site(alloc, &file)?;
        Ok(())
    }

    /// `["swap"]`: the site and the spare one change places, so that the file to which a journal was migrated is
    /// compared, stopped or opened as the site's.
    pub fn swap_sites(&mut self) {
        mem::swap(&mut self.site, &mut self.spare);
    }

    /// Plans a connection with this text, of which this read and this write fail, from 1, where they aren't 0.
    fn plan_connection(
        &mut self,
        alloc: Global,
        text: &Value,
        failing_read: usize,
        failing_write: usize,
    ) -> Result<(), CaseFault> {
        let (read, write) = (failing(failing_read), failing(failing_write));
        let bytes = self.names.text(alloc, text)?;
        let plan = connection(alloc, &bytes, self.outside.piece, read, write)?;
        self.plan_door_as(plan)
    }

    /// Plans what comes of the door behind what was planned before.
    pub fn plan_door_as(&mut self, plan: DoorPlan) -> Result<(), CaseFault> {
        self.outside.door.push(plan)?;
        Ok(())
    }

    /// `["door", TEXT]`: a connection comes with this text.
    pub fn plan_door(&mut self, alloc: Global, text: &Value) -> Result<(), CaseFault> {
        self.plan_connection(alloc, text, 0, 0)
    }

    /// `["em door", TEXT]`: a connection of the element manager comes with this text.
    pub fn plan_em_door(&mut self, alloc: Global, text: &Value) -> Result<(), CaseFault> {
        let mut pieces = Vec::new(alloc);
        let bytes = self.names.text(alloc, text)?;
        put_piece(alloc, &mut pieces, &bytes)?;
        self.plan_door_as(DoorPlan::Conn {
            role: Role::Element,
            pieces,
            failing_read: None,
            failing_write: None,
        })
    }

    /// Plans a connection with this text, of which the second write fails.
    pub fn plan_second_write(&mut self, alloc: Global, text: &Value) -> Result<(), CaseFault> {
        self.plan_connection(alloc, text, 0, 2)
    }

    /// `["bad door", READ, WRITE, TEXT]`: a connection comes of which this read or this write fails, from 1; 0 where
    /// none does.
    pub fn plan_bad_door(&mut self, alloc: Global, act: &[Value]) -> Result<(), CaseFault> {
        self.plan_connection(alloc, part(act, 3)?, count(act, 1)?, count(act, 2)?)
    }

    /// `["cuts", TEXT]`: connections come with this text in pieces of one byte, and in two pieces, cut at each place.
    pub fn plan_cuts(&mut self, alloc: Global, act: &[Value]) -> Result<(), CaseFault> {
        let bytes = self.names.text(alloc, part(act, 1)?)?;
        self.plan_cuts_of(alloc, &bytes)
    }

    /// Plans connections with these bytes in pieces of one byte, and in two pieces, cut at each place.
    fn plan_cuts_of(&mut self, alloc: Global, bytes: &[u8]) -> Result<(), CaseFault> {
        self.plan_door_as(connection(alloc, bytes, 1, None, None)?)?;
        for cut in 0..bytes.len() {
            let (front, back) = bytes.split_at(cut);
            self.plan_door_as(in_two(alloc, front, back)?)?;
        }
        Ok(())
    }

    /// `["says", STATUS, LOCATION, TEXT]`: the orchestrator of the next command answers this next; an empty location is
    /// none.
    pub fn plan_answer(&mut self, alloc: Global, act: &[Value]) -> Result<(), CaseFault> {
        let (status, location, text) = (small(act, 1)?, word(act, 2)?, part(act, 3)?);
        let body = self.names.text(alloc, text)?;
        let location = location_of(alloc, location);
        self.plan_grant(GrantPlan::Raw {
            status,
            location,
            body: Bytes::of_vec(body),
        })
    }

    /// Plans what the orchestrator of the next command does behind what was planned before.
    pub fn plan_grant(&mut self, plan: GrantPlan) -> Result<(), CaseFault> {
        self.outside.says.push(plan)?;
        Ok(())
    }

    /// `["receipts", ANSWER..]`: the posts of the next command are answered so in turn: with a status, or, by `fail`,
    /// not at all. Behind these each is answered with 204.
    pub fn plan_receipts(&mut self, alloc: Global, act: &[Value]) -> Result<(), CaseFault> {
        self.outside.receipts = Vec::new(alloc);
        for place in 1..act.len() {
            self.outside.receipts.push(receipt(act, place)?)?;
        }
        Ok(())
    }
}
