//! Whole lives, which are stopped or of which a call fails, and short ones, of which each is stopped at another of its
//! calls.

use crate::stage::Stage;
use case_lives::{
    ActFault, CaseFault, Step, calls_of, count, differs, entries, front_of, list, opening, part,
    plain_site, posts_of, quoted, records_in, same_text, steps_of,
};
use grant_desk::GrantAll;
use serde_json::Value;
use site_traits::Choice;
use std::alloc::Global;
use std::mem;

/// Rounds that make 28 calls or more, since each round records an event.
const SHORT_LIFE: u64 = 7;

/// The most short lives.
const LIVES: usize = 60;

/// How many calls behind its opening a short life of this number is stopped: from 5, which is the attempt's intent with
/// its begin or the look with its end, to 27, and another number in each of 23 lives. Where all were stopped at one
/// place, each might end the attempt of the one before and leave another without a job.
fn length_of(life: usize) -> usize {
    let turned = life.saturating_mul(7) % 23;
    turned.saturating_add(5)
}

/// What stands at the fourth place of an act, each a list of steps; nothing where it is left out.
fn lost_of(alloc: Global, act: &[Value]) -> Result<Vec<Vec<Step>>, CaseFault> {
    let mut lost = Vec::new(alloc);
    if act.len() > 3 {
        for steps in list(act, 3)? {
            lost.push(steps_of(alloc, entries(steps)?)?)?;
        }
    }
    Ok(lost)
}

impl Stage {
    /// `["life", [STEP..], [STEP..], [[STEP..]..]]`: what was done on the site, since it was made or renewed, is a
    /// whole life of the second steps, behind the first ones. The third may be left out: for each attempt that the life
    /// begins, in order, the steps in place of the second ones, where that attempt had no job when the life was
    /// stopped. What was posted is what the last command posted.
    pub fn take_life(&mut self, alloc: Global, act: &[Value]) -> Result<(), CaseFault> {
        let (before, steps) = (list(act, 1)?, list(act, 2)?);
        self.whole.before = steps_of(alloc, before)?;
        self.whole.steps = steps_of(alloc, steps)?;
        self.whole.lost = lost_of(alloc, act)?;
        self.whole.old_records = records_in(&self.before);
        self.whole.posts = posts_of(alloc, &self.site)?;
        self.whole.lines = self.ran.posts.to_vec(alloc)?;
        self.whole.site = mem::replace(&mut self.site, plain_site(alloc, &[])?);
        self.whole.earlier = self.earlier;
        Ok(())
    }

    /// Lets the site be what a stop of the whole life at this moment leaves with this choice.
    pub fn stop_at(
        &mut self,
        alloc: Global,
        moment: usize,
        choice: Choice,
    ) -> Result<(), CaseFault> {
        self.granting = GrantAll::new(alloc)?;
        self.site = self.whole.stopped(alloc, moment, choice)?;
        self.stop = self.whole.stop(moment, choice);
        if self.stop.lost.is_some() {
            self.lost = self.lost.saturating_add(1);
        }
        Ok(())
    }

    /// The disk calls of the whole life.
    pub fn disk_calls(&self) -> usize {
        calls_of(&self.whole.site).disk
    }

    /// Plans for the next site that this disk call of the whole life, from 0, fails.
    pub fn fail_at(&mut self, alloc: Global, call: usize) -> Result<(), CaseFault> {
        let number = self
            .whole
            .earlier
            .disk
            .saturating_add(call)
            .saturating_add(1);
        self.plan.failing = [number as u64].to_vec(alloc)?;
        self.stop = self.whole.fault(call, 0);
        self.granting = GrantAll::new(alloc)?;
        Ok(())
    }

    /// `["fallen"]`: the last command ended with 3 and `site fault`. What is there of the whole life is counted, and
    /// the next command has another orchestrator.
    pub fn fallen(&mut self, alloc: Global) -> Result<(), ActFault> {
        let made = calls_of(&self.site).begins;
        let begins = made.saturating_sub(self.whole.earlier.begins);
        self.stop = self.whole.fault(self.stop.place, begins);
        self.granting = GrantAll::new(alloc)?;
        self.has_fallen(alloc)
    }

    /// The last command ended with 3 and `site fault`.
    fn has_fallen(&self, alloc: Global) -> Result<(), ActFault> {
        self.ended_with(alloc, 3)?;
        same_text(alloc, b"site fault\n", &self.ran.printed)
    }

    /// A short life of this number, stopped in its turn with this choice, leaves all records that were there.
    fn lives_on(&mut self, alloc: Global, life: usize, choice: Choice) -> Result<(), ActFault> {
        self.granting = GrantAll::new(alloc)?;
        self.quiet_rounds(alloc, SHORT_LIFE)?;
        let last = opening(&self.site).saturating_add(length_of(life));
        self.keep_posts(alloc, last.saturating_sub(1))?;
        self.site = self
            .site
            .stopped(alloc, last.min(self.site.moment()), choice)?;
        self.keeps_records(alloc)
    }

    /// `["lives", FIRST, CHOICE, TEXT]`: short lives, from the one of that number on, each stopped in its turn with
    /// that choice, keep each record that was there, and come to records that end with this text.
    pub fn lives(&mut self, alloc: Global, act: &[Value], choice: Choice) -> Result<(), ActFault> {
        let first = count(act, 1)?;
        let end = self.names.text(alloc, part(act, 3)?)?;
        self.lives_to(alloc, first, choice, &end)
    }

    /// Short lives, from the one of that number on, each stopped in its turn with that choice, keep each record that
    /// was there, and come to records that end with this.
    fn lives_to(
        &mut self,
        alloc: Global,
        first: usize,
        choice: Choice,
        end: &[u8],
    ) -> Result<(), ActFault> {
        for life in 0..LIVES {
            if front_of(self.site.file()).ends_with(end) {
                return Ok(());
            }
            self.lives_on(alloc, first.saturating_add(life), choice)?;
        }
        let wanted = quoted(alloc, end)?;
        Err(differs(
            format!(in alloc; "records that end with {wanted}")?,
            format!(in alloc; "others behind {LIVES} lives")?,
        ))
    }
}
