//! Acts that compare what a command told, printed and left with what it is to, and tell where they differ first.

use crate::objects::{Ran, ask};
use crate::stage::Stage;
use case_lives::{
    ActFault, CaseFault, Step, agrees, behind, calls_on_jobs, change_done, count, differs,
    front_of, front_with, job_text, journal_with, number, part, plain_site, quoted, same_file,
    same_text, same_word, steps_of, tag_text, word, work_text,
};
use lcm_events::Act;
use serde_json::Value;
use std::alloc::{AllocError, Global};

/// The request that shows occurrence 1.
const SHOW_OCCURRENCE: &[u8] =
    b"GET /vnflcm/v1/vnf_lcm_op_occs/00000007-766d-8002-8000-000000000001 HTTP/1.1\r\n\r\n";

/// The request that shows instance 1.
const SHOW_INSTANCE: &[u8] =
    b"GET /vnflcm/v1/vnf_instances/00000007-766d-8001-8000-000000000001 HTTP/1.1\r\n\r\n";

/// Where a text stands in the bytes that it is compared with.
#[derive(Clone, Copy)]
pub enum Standing {
    /// It is all of them.
    Whole,
    /// They begin with it.
    Front,
    /// They end with it.
    End,
    /// They have it somewhere.
    Within,
}

/// The text stands so in these bytes, or the first lines that differ are told.
fn stands(alloc: Global, bytes: &[u8], text: &[u8], standing: Standing) -> Result<(), ActFault> {
    match standing {
        Standing::Whole => same_text(alloc, text, bytes),
        Standing::Front => same_text(alloc, text, front(bytes, text.len())),
        Standing::End => same_text(alloc, text, end(bytes, text.len())),
        Standing::Within => has_within(alloc, bytes, text),
    }
}

/// So many bytes at the front; all where there are fewer.
fn front(bytes: &[u8], count: usize) -> &[u8] {
    bytes.get(..count).unwrap_or(bytes)
}

/// So many bytes at the end; all where there are fewer.
fn end(bytes: &[u8], count: usize) -> &[u8] {
    bytes
        .get(bytes.len().saturating_sub(count)..)
        .unwrap_or(bytes)
}

/// Whether these bytes have this text somewhere; an empty text is nowhere.
fn is_within(bytes: &[u8], text: &[u8]) -> bool {
    for place in 0..bytes.len() {
        if !text.is_empty() && bytes[place..].starts_with(text) {
            return true;
        }
    }
    false
}

/// These bytes have this text somewhere, or both are told.
fn has_within(alloc: Global, bytes: &[u8], text: &[u8]) -> Result<(), ActFault> {
    if is_within(bytes, text) {
        return Ok(());
    }
    Err(differs(quoted(alloc, text)?, quoted(alloc, bytes)?))
}

/// The command ended with this status, or it is told with what was printed.
fn has_ended(alloc: Global, ran: &Ran, status: u8) -> Result<(), ActFault> {
    if ran.status == status {
        return Ok(());
    }
    Err(differs(
        format!(in alloc; "status {status}")?,
        ended_text(alloc, ran)?,
    ))
}

/// How a command ended, and what it printed.
fn ended_text(alloc: Global, ran: &Ran) -> Result<String, AllocError> {
    let (status, printed) = (ran.status, quoted(alloc, &ran.printed)?);
    format!(in alloc; "status {status}, printed {printed}")
}

/// This request over a site with this file is told this answer, with status 0.
fn is_told_over(alloc: Global, file: &[u8], request: &[u8], answer: &[u8]) -> Result<(), ActFault> {
    let mut site = plain_site(alloc, file)?;
    let ran = ask(alloc, &mut site, request)?;
    has_ended(alloc, &ran, 0)?;
    same_text(alloc, answer, &ran.told)
}

/// The numbers behind the first place of an act, each behind a space; a part that is none is left out.
fn numbers_of(alloc: Global, act: &[Value]) -> Result<String, AllocError> {
    let mut text = String::new(alloc);
    for value in behind(act, 1) {
        if let Some(number) = value.as_u64() {
            text.push_str(&format!(in alloc; " {number}")?)?;
        }
    }
    Ok(text)
}

/// These numbers, each behind a space.
fn numbers_text(alloc: Global, numbers: &[u64]) -> Result<String, AllocError> {
    let mut text = String::new(alloc);
    for number in numbers {
        text.push_str(&format!(in alloc; " {number}")?)?;
    }
    Ok(text)
}

/// Whether these are the numbers behind the first place of an act; they aren't where it is misspelled, so that it
/// doesn't come out right.
pub fn has_numbers(act: &[Value], numbers: &[u64]) -> bool {
    for place in 0..numbers.len() {
        match act.get(place.saturating_add(1)) {
            Some(value) if value.as_u64() == Some(numbers[place]) => {}
            _ => return false,
        }
    }
    act.len() == numbers.len().saturating_add(1)
}

/// These are the numbers behind the first place of an act, or all are told behind its word.
pub fn are(alloc: Global, act: &[Value], numbers: &[u64]) -> Result<(), ActFault> {
    if has_numbers(act, numbers) {
        return Ok(());
    }
    let (word, wanted) = (word(act, 0)?, numbers_of(alloc, act)?);
    let came = numbers_text(alloc, numbers)?;
    Err(differs(
        format!(in alloc; "{word}{wanted}")?,
        format!(in alloc; "{word}{came}")?,
    ))
}

/// These numbers are the same, or both are told behind their word.
pub fn same_number(alloc: Global, word: &str, wanted: u64, came: u64) -> Result<(), ActFault> {
    if wanted == came {
        return Ok(());
    }
    Err(differs(
        format!(in alloc; "{word} {wanted}")?,
        format!(in alloc; "{word} {came}")?,
    ))
}

/// This holds, or it is told that the one was wanted and the other came.
pub fn holds(alloc: Global, holds: bool, wanted: &str, came: &str) -> Result<(), ActFault> {
    if holds {
        return Ok(());
    }
    Err(differs(
        String::from_str(alloc, wanted)?,
        String::from_str(alloc, came)?,
    ))
}

/// This text is the word at this place of an act, or both are told.
pub fn is_text(alloc: Global, text: &str, act: &[Value], place: usize) -> Result<(), ActFault> {
    same_word(alloc, word(act, place)?, text)
}

/// The word at the third place of an act is what this work does.
fn does(alloc: Global, work: &Act, act: &[Value]) -> Result<(), ActFault> {
    is_text(alloc, &work_text(alloc, work)?, act, 2)
}

impl Stage {
    /// The file is as it was before the last command.
    pub fn stays(&self, alloc: Global) -> Result<(), ActFault> {
        same_file(alloc, &self.before, self.site.file())
    }

    /// How many bytes the last command made the file longer; a number above all lengths where it is shorter.
    pub fn grown(&self) -> u64 {
        self.site.file().len().wrapping_sub(self.before.len()) as u64
    }

    /// `["status", N]`, or one of several numbers: the last command ended with this status.
    pub fn has_status(&self, alloc: Global, act: &[Value]) -> Result<(), ActFault> {
        let status = Some(u64::from(self.ran.status));
        for value in behind(act, 1) {
            if value.as_u64() == status {
                return Ok(());
            }
        }
        let wanted = numbers_of(alloc, act)?;
        Err(differs(
            format!(in alloc; "status{wanted}")?,
            ended_text(alloc, &self.ran)?,
        ))
    }

    /// The last command ended with this status.
    pub fn ended_with(&self, alloc: Global, status: u8) -> Result<(), ActFault> {
        has_ended(alloc, &self.ran, status)
    }

    /// The last command ended with 0, and its connection was told this and hung up.
    pub fn is_answered(&self, alloc: Global, text: &Value) -> Result<(), ActFault> {
        let told = self.names.text(alloc, text)?;
        has_ended(alloc, &self.ran, 0)?;
        same_text(alloc, &told, &self.ran.told)?;
        self.has_hung_up(alloc)
    }

    /// `["only answered", TEXT]`: the file is as it was before the last command, which ended with 0, and its connection
    /// was told this and hung up.
    pub fn is_only_answered(&self, alloc: Global, text: &Value) -> Result<(), ActFault> {
        self.is_answered(alloc, text)?;
        self.stays(alloc)
    }

    /// `["ended"]`: the last connection was hung up.
    pub fn has_hung_up(&self, alloc: Global) -> Result<(), ActFault> {
        holds(
            alloc,
            self.ran.ended,
            "the connection is hung up",
            "it isn't",
        )
    }

    /// The text that stands behind the word of an act stands so in these bytes.
    pub fn has_text(
        &self,
        alloc: Global,
        act: &[Value],
        bytes: &[u8],
        standing: Standing,
    ) -> Result<(), ActFault> {
        let text = self.names.text(alloc, part(act, 1)?)?;
        stands(alloc, bytes, &text, standing)
    }

    /// The journal that stands behind the word of an act is the site's, or its front.
    pub fn has_file(&self, alloc: Global, act: &[Value], is_front: bool) -> Result<(), ActFault> {
        let (text, file) = (self.names.text(alloc, part(act, 1)?)?, self.site.file());
        let came = if is_front {
            front(file, text.len())
        } else {
            file
        };
        same_file(alloc, &text, came)
    }

    /// `["done jobs", CHANGE..]`: the jobs are all done, and are for these changes, in this order.
    pub fn are_done(&self, alloc: Global, act: &[Value]) -> Result<(), ActFault> {
        let changes = behind(act, 1);
        for place in 0..changes.len() {
            if changes[place].as_u64() != change_done(&self.site, place) {
                return Err(self.is_not_done(alloc, &changes[place], place)?);
            }
        }
        same_number(alloc, "jobs", changes.len() as u64, self.site.jobs() as u64)
    }

    /// The job at this place is wanted done for this change.
    fn is_not_done(
        &self,
        alloc: Global,
        change: &Value,
        place: usize,
    ) -> Result<ActFault, AllocError> {
        let (number, came) = (place.saturating_add(1), job_text(alloc, &self.site, place)?);
        let change = change.as_u64().unwrap_or(u64::MAX);
        Ok(differs(
            format!(in alloc; "job {number}: change {change}, done")?,
            format!(in alloc; "job {number}: {came}")?,
        ))
    }

    /// `["job", PLACE, OCCURRENCE, CHANGE, ATTEMPT, WAY]`: the job at this place, from 0, is for this attempt.
    pub fn has_job(&self, alloc: Global, act: &[Value]) -> Result<(), ActFault> {
        let place = count(act, 1)?;
        let (occurrence, change, attempt) = (number(act, 2)?, number(act, 3)?, number(act, 4)?);
        let way = word(act, 5)?;
        let wanted = format!(in alloc; "{occurrence} {change} {attempt} {way}")?;
        if place >= self.site.jobs() {
            return Err(differs(wanted, job_text(alloc, &self.site, place)?));
        }
        let (tag, _, _) = self.site.job(place);
        same_word(alloc, &wanted, &tag_text(alloc, tag)?)
    }

    /// `["stands", PLACE, TEXT]`: the job at this place, from 0, stands so: its tag, and `running`, `done NAME`,
    /// `broken CODE` or `aborted`.
    pub fn job_stands(&self, alloc: Global, act: &[Value]) -> Result<(), ActFault> {
        let text = job_text(alloc, &self.site, count(act, 1)?)?;
        is_text(alloc, &text, act, 2)
    }

    /// `["does", PLACE, WORK]`: the work of the job at this place, from 0, is this.
    pub fn job_does(&self, alloc: Global, act: &[Value]) -> Result<(), ActFault> {
        let place = count(act, 1)?;
        if place >= self.site.jobs() {
            return is_text(alloc, "no job", act, 2);
        }
        let (_, work, _) = self.site.job(place);
        does(alloc, work, act)
    }

    /// `["calls on jobs", TEXT]`: the calls on jobs that came through since the site was made, each a line.
    pub fn has_calls(&self, alloc: Global, act: &[Value]) -> Result<(), ActFault> {
        let calls = calls_on_jobs(alloc, &self.site)?;
        self.has_text(alloc, act, calls.as_bytes(), Standing::Whole)
    }

    /// The file has these steps behind its base, and the jobs agree with them.
    fn has_left(&self, alloc: Global, steps: &[Step]) -> Result<(), ActFault> {
        same_file(
            alloc,
            &journal_with(alloc, &self.base, steps)?,
            self.site.file(),
        )?;
        agrees(alloc, &self.site, steps)
    }

    /// `["steps", STEP..]`: the file has these steps behind its base, and the jobs agree with them.
    pub fn has_steps(&mut self, alloc: Global, act: &[Value]) -> Result<(), ActFault> {
        self.steps = steps_of(alloc, behind(act, 1))?;
        self.has_left(alloc, &self.steps)
    }

    /// `["left"]`: the file has the records that are left of the whole life, the jobs agree with them, and are as many
    /// as were begun.
    pub fn is_left(&self, alloc: Global) -> Result<(), ActFault> {
        let steps = self.whole.steps_to(alloc, self.stop.records)?;
        self.has_front(alloc, &steps)
    }

    /// The file has these steps behind its base, the jobs agree with them, and are as many as were begun.
    fn has_front(&self, alloc: Global, steps: &[Step]) -> Result<(), ActFault> {
        let jobs = self.whole.earlier.jobs.saturating_add(self.stop.begins);
        let came = front_of(self.site.file());
        same_file(alloc, &front_with(alloc, &self.base, steps)?, came)?;
        same_number(alloc, "jobs", jobs as u64, self.site.jobs() as u64)?;
        agrees(alloc, &self.site, steps)
    }

    /// `["again"]`: the file has all steps of the whole life, behind the records that were there before the last
    /// command, or, where an attempt had no job yet, those that the life has for that; and the jobs agree with them.
    pub fn is_again(&mut self, alloc: Global) -> Result<(), ActFault> {
        let Some(steps) = self.whole.steps_again(alloc, self.stop.lost)? else {
            return Err(ActFault::Unread(CaseFault::Spelling));
        };
        self.steps = steps;
        self.keeps_records(alloc)?;
        self.has_left(alloc, &self.steps)
    }

    /// The file begins with the records that were there before the last command.
    pub fn keeps_records(&self, alloc: Global) -> Result<(), ActFault> {
        let wanted = front_of(&self.before);
        same_file(alloc, wanted, front(self.site.file(), wanted.len()))
    }

    /// `["face", TEXT]`: this is the answer that shows occurrence 1, of which the steps were compared last.
    pub fn has_face(&self, alloc: Global, act: &[Value]) -> Result<(), ActFault> {
        let file = journal_with(alloc, &self.base, &self.steps)?;
        let answer = self.names.text(alloc, part(act, 1)?)?;
        is_told_over(alloc, &file, SHOW_OCCURRENCE, &answer)
    }

    /// `["instance", TEXT]`: this is the answer that shows instance 1 over a copy of the file.
    pub fn has_instance(&self, alloc: Global, act: &[Value]) -> Result<(), ActFault> {
        let answer = self.names.text(alloc, part(act, 1)?)?;
        is_told_over(alloc, self.site.file(), SHOW_INSTANCE, &answer)
    }
}
