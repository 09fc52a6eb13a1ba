//! The site of a trial: a file and an infrastructure in memory that refuses each sixteenth begin and does every other
//! job at the first look.
ghost use Rattle.std.specs.Prelude.{◌≡◌, ◌≤◌, ◌↔◌, ◌+◌, IfOk, IsTrue, IsSome, OnOk, [], drop, length, take};
ghost use Rattle.site_traits.specs.Counts.{Ask, DiskCause, abort_counts, asked, begin_counts, look_counts, one_more};
ghost use Rattle.site_traits.specs.Jobs.{phase_of};
ghost use Rattle.site_traits.specs.MemSite.{state_of as told};
ghost use Rattle.site_traits.specs.Site.{Aborts, Begins, Cuts, Looks, Reads, Syncs, Writes};
ghost use Rattle.trial_outside.specs.Going.{GoesAsPlanned, GoesAsPlanned-prop};

use crate::plans::{BEGINS, FILE_BYTES, all_plans};
use lcm_events::{Act, Tag};
use site_traits::{AbortAnswer, BeginAnswer, DiskFailed, LookAnswer, MemSite, Site, SitePlan};
use std::alloc::{AllocError, Global};

/// The site of a trial, in memory, which tells all.
///
/// Each sixteenth begin that is answered is refused with code 9, and every other is taken: its job does its work at the
/// first look, on the resource `r` with the job's place among those taken, from 1. So each look that is answered finds
/// its job done.
///
/// A begin fails behind 65,536 that were answered, where a begin, a look or an abort failed before, and where there is
/// no memory for a copy of the work; a look fails at a job that isn't there; each abort fails. Each of the three fails,
/// and each disk call, where there is no room for it on record: there is for 1,048,576 calls, and for 142,606,336 bytes
/// written. A write past the 71,303,168 bytes that the file has room for fails too.
///
/// Source: own rule.
pub struct TrialSite {
    inner: MemSite,
    begins: u64,
    vim_faults: u64,
    look_faults: u64,
    pub ghost goes: { GoesAsPlanned inner begins vim_faults } by { GoesAsPlanned-prop inner begins vim_faults },
}

impl Drop for TrialSite {
    // Written out, so that the proof of a caller calls it and doesn't take the value apart at each of its ends.
    fn drop(self) {
        let TrialSite {
            inner: _,
            begins: _,
            vim_faults: _,
            look_faults: _,
        } = self;
    }
}

/// Whether the site has a job of this tag.
fn has_job(site: &MemSite, tag: &Tag) -> bool
    ensures { IsTrue result ↔ IsSome (phase_of tag.now (told site.now).jobs) }
{
    let mut place = site.jobs();
    while place > 0 {
        place -= 1;
        if *tag == site.job(place).0 {
            return true;
        }
    }
    false
}

impl TrialSite {
    ghost use Rattle.trial_outside.specs.TrialSite.{IsFreshSite, counts_of, state_of};

    /// A site with an empty file and no job, on which no call was made.
    ///
    /// It takes all its room, but for the names in the work of jobs.
    pub fn new(alloc: Global) -> Result<TrialSite, AllocError>
        ensures { IfOk result IsFreshSite }
    {
        let plan = SitePlan {
            bytes: FILE_BYTES,
            jobs: BEGINS as usize,
            failing: Vec::new(alloc),
            work: all_plans(alloc)?,
        };
        Ok(TrialSite {
            inner: MemSite::new(alloc, plan)?,
            begins: 0,
            vim_faults: 0,
            look_faults: 0,
        })
    }

    /// How many begins were answered.
    pub fn begins(&self) -> u64
        ensures { result ≡ length (state_of self.now).answers.begins }
    {
        self.begins
    }

    /// How many jobs there are.
    pub fn jobs(&self) -> usize
        ensures { result ≡ length (state_of self.now).jobs }
    {
        self.inner.jobs()
    }

    /// How many begins, looks and aborts failed.
    pub fn vim_faults(&self) -> u64
        ensures { result ≡ (counts_of self.now).vim }
    {
        self.vim_faults
    }

    /// How many disk calls failed.
    pub fn faults(&self) -> u64
        ensures { result ≡ (counts_of self.now).disk }
    {
        self.inner.faults()
    }

    /// The file's length in bytes.
    pub fn size(&self) -> usize
        ensures { result ≡ length (state_of self.now).image }
    {
        self.inner.file().len()
    }
}

impl Site for TrialSite {
    ghost use Rattle.trial_outside.specs.TrialSite.{counts_of, state_of};

    ghost tells = { Unit {0} };

    ghost state = { state_of };

    ghost counts = { counts_of };

    fn length(&mut self) -> Result<u64, DiskFailed>
        ensures length { IfOk result (λ n. n ≡ length (state_of self.old).image) }
        ensures told { Reads (state_of self.old) (state_of self.new) }
        ensures cause { DiskCause (counts_of self.old) (counts_of self.new) result }
    {
        self.inner.length()
    }

    fn read_at(&mut self, at: u64, into: &mut [u8]) -> Result<(), DiskFailed>
        requires { at + length into.old ≤ length (state_of self.old).image }
        ensures bytes { OnOk result (into.new ≡ take (length into.old) (drop at (state_of self.old).image)) }
        ensures told { Reads (state_of self.old) (state_of self.new) }
        ensures cause { DiskCause (counts_of self.old) (counts_of self.new) result }
    {
        self.inner.read_at(at, into)
    }

    fn write_at(&mut self, at: u64, bytes: &[u8]) -> Result<(), DiskFailed>
        requires { at ≤ length (state_of self.old).image }
        ensures told { Writes at bytes.now result (state_of self.old) (state_of self.new) }
        ensures cause { DiskCause (asked Ask.write (counts_of self.old)) (counts_of self.new) result }
    {
        self.inner.write_at(at, bytes)
    }

    fn cut(&mut self, to: u64) -> Result<(), DiskFailed>
        requires { to ≤ length (state_of self.old).image }
        ensures told { Cuts to result (state_of self.old) (state_of self.new) }
        ensures cause { DiskCause (asked Ask.cut (counts_of self.old)) (counts_of self.new) result }
    {
        self.inner.cut(to)
    }

    fn sync(&mut self) -> Result<(), DiskFailed>
        ensures told { Syncs result (state_of self.old) (state_of self.new) }
        ensures cause { DiskCause (asked Ask.sync (counts_of self.old)) (counts_of self.new) result }
    {
        self.inner.sync()
    }

    fn begin(&mut self, tag: &Tag, act: &Act) -> BeginAnswer
        ensures told { Begins tag.now act.now result (state_of self.old) (state_of self.new) }
        ensures cause { counts_of self.new ≡ begin_counts result (counts_of self.old) }
    {
        if self.vim_faults > 0 || self.begins >= BEGINS {
            self.vim_faults = self.vim_faults.saturating_add(1);
            return BeginAnswer::Failed;
        }
        let answer = self.inner.begin(tag, act);
        if let BeginAnswer::Failed = answer {
            self.vim_faults = self.vim_faults.saturating_add(1);
            return answer;
        }
        self.begins += 1;
        answer
    }

    fn look(&mut self, tag: &Tag) -> LookAnswer
        ensures told { Looks tag.now result (state_of self.old) (state_of self.new) }
        ensures cause { counts_of self.new ≡ look_counts result (counts_of self.old) }
    {
        if !has_job(&self.inner, tag) {
            self.vim_faults = self.vim_faults.saturating_add(1);
            self.look_faults = self.look_faults.saturating_add(1);
            return LookAnswer::Failed;
        }
        let answer = self.inner.look(tag);
        if let LookAnswer::Failed = answer {
            self.vim_faults = self.vim_faults.saturating_add(1);
            self.look_faults = self.look_faults.saturating_add(1);
        }
        answer
    }

    fn abort(&mut self, tag: &Tag) -> AbortAnswer
        ensures told { Aborts tag.now result (state_of self.old) (state_of self.new) }
        ensures cause { counts_of self.new ≡ abort_counts result (counts_of self.old) }
    {
        self.vim_faults = self.vim_faults.saturating_add(1);
        AbortAnswer::Failed
    }
}

#[cfg(test)]
mod tests {
    use super::*;
    use lcm_events::{DefKind, Names, Verb, Way};
    use std::test::Fail;
    use vnfm_base::Name;

    /// The first attempt at this change of occurrence 1.
    fn tag_of(change: u16) -> Tag {
        Tag {
            occ: 1,
            change,
            attempt: 1,
            way: Way::Forward,
        }
    }

    /// The work of a link.
    fn link(alloc: Global) -> Option<Act> {
        let name = Name::of(b"net")?;
        Some(Act {
            verb: Verb::Create,
            kind: DefKind::Link,
            template: name,
            vdu: name,
            serial: 0,
            vim: name,
            zone: name,
            size: 0,
            cpus: 0,
            on: Names::new(alloc),
        })
    }

    #[test]
    fn the_sixteenth_begin_is_refused(rt: HostRuntime) -> Result<(), Fail> {
        let mut site = TrialSite::new(rt.alloc())?;
        let work = link(rt.alloc()).ok_or("a name")?;
        for change in 0..15 {
            let answer = site.begin(&tag_of(change), &work);
            assert!(rt; matches!(answer, BeginAnswer::Begun), "at {change}");
        }
        let answer = site.begin(&tag_of(15), &work);
        assert!(rt; matches!(answer, BeginAnswer::Refused(9)));
        assert_eq!(rt; site.begins(), 16);
        assert_eq!(rt; site.jobs(), 15);
        assert_eq!(rt; site.vim_faults(), 0);
        Ok(())
    }

    #[test]
    fn a_look_finds_its_job_done(rt: HostRuntime) -> Result<(), Fail> {
        let mut site = TrialSite::new(rt.alloc())?;
        let work = link(rt.alloc()).ok_or("a name")?;
        for change in 0..3 {
            let _ = site.begin(&tag_of(change), &work);
        }
        let LookAnswer::Done(name) = site.look(&tag_of(1)) else {
            return Err("it isn't done".into());
        };
        assert_eq!(rt; name.as_str(), "r2");
        assert!(rt;
            matches!(site.look(&tag_of(3)), LookAnswer::Failed),
            "no job"
        );
        assert!(rt;
            matches!(site.begin(&tag_of(3), &work), BeginAnswer::Failed),
            "behind it"
        );
        assert_eq!(rt; site.vim_faults(), 2);
        Ok(())
    }
}
