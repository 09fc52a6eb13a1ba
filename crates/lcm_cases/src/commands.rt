//! Acts that run a command or make a turn, and what stops a life.

use crate::checks::{are, holds};
use crate::objects::{clock_at, mouth_at, put_word, run_over, words_of};
use crate::recorder::Recorder;
use crate::stage::Stage;
use case_lives::{
    ActFault, CaseFault, Earlier, behind, count, differs, number, opening, part, same_text, word,
};
use executor::Manager;
use grant_desk::GrantAll;
use lcm_events::Role;
use lcm_mouth::Mouth;
use lcm_sessions::answer_session;
use occ_work::{Turn, turn};
use serde_json::Value;
use site_traits::{Choice, DoorPlan, MemDoor, MemSite, NextAnswer, PostPlan, SetClock, SiteCall};
use std::alloc::{AllocError, Global};
use std::mem;
use vnfm_base::{Moment, Text};

/// The words of a command, as an act spells them.
pub fn command_of(alloc: Global, values: &[Value]) -> Result<Vec<Text>, CaseFault> {
    let mut words = Vec::new(alloc);
    for place in 0..values.len() {
        put_word(alloc, &mut words, word(values, place)?)?;
    }
    Ok(words)
}

/// The words `once --journal j --rounds` and this number.
fn rounds_words(alloc: Global, count: u64) -> Result<Vec<Text>, AllocError> {
    let number = format!(in alloc; "{count}")?;
    words_of(
        alloc,
        &["once", "--journal", "j", "--rounds", number.as_str()],
    )
}

/// Opens the journal and makes a turn; none where that failed.
fn one_turn(alloc: Global, site: &mut MemSite, orchestrator: &mut GrantAll) -> Option<Turn> {
    let Ok(mut manager) = Manager::load(alloc, site) else {
        return None;
    };
    let now = Moment::of(1_700_000_000_000);
    turn(alloc, &mut manager, site, orchestrator, now).ok()
}

/// Answers the session of the connection that this mouth's door plans, at this moment, without a turn: how many replies
/// were told; none where the journal wasn't opened or nobody came.
fn serve(
    alloc: Global,
    site: &mut MemSite,
    mouth: &mut Mouth<MemDoor>,
    clock: &mut SetClock,
) -> Option<u32> {
    let mut manager = match Manager::load(alloc, site) {
        Ok(manager) => manager,
        Err(_) => return None,
    };
    let NextAnswer::Came(_) = mouth.next() else {
        return None;
    };
    answer_session(alloc, &mut manager, site, mouth, clock, Role::Orchestrator).ok()
}

/// What stands behind the first begin on this site's record.
fn behind_the_begin(site: &MemSite) -> usize {
    for place in 0..site.moment() {
        if let SiteCall::Began { .. } = site.call(place) {
            return place.saturating_add(1);
        }
    }
    site.moment()
}

/// Whether a turn that acted stays away from the file, or one that acted nothing doesn't.
fn is_amiss(turn: Turn, stays: bool) -> bool {
    stays != (turn.acted == 0)
}

/// A turn was made that came to the counts behind the first place of an act, and the file stays exactly where it acted
/// nothing.
fn has_made(alloc: Global, act: &[Value], made: Option<Turn>, stays: bool) -> Result<(), ActFault> {
    let Some(turn) = made else {
        return holds(
            alloc,
            false,
            "a turn",
            "the journal isn't opened, or the turn was ended",
        );
    };
    let (acted, waiting) = (u64::from(turn.acted), u64::from(turn.waiting));
    are(alloc, act, &[acted, waiting, u64::from(turn.unreached)])?;
    holds(
        alloc,
        !is_amiss(turn, stays),
        "a file that stays exactly where nothing was acted",
        "another",
    )
}

/// One reply was told in a session.
fn has_replied(alloc: Global, replies: Option<u32>) -> Result<(), ActFault> {
    match replies {
        Some(1) => Ok(()),
        Some(replies) => Err(differs(
            String::from_str(alloc, "1 reply")?,
            format!(in alloc; "{replies} replies")?,
        )),
        None => holds(alloc, false, "1 reply", "no session"),
    }
}

impl Stage {
    /// The connections that are planned.
    fn door(&mut self, alloc: Global) -> Vec<DoorPlan> {
        mem::replace(&mut self.outside.door, Vec::new(alloc))
    }

    /// What is planned of posts.
    pub fn receipts(&mut self, alloc: Global) -> Vec<PostPlan> {
        mem::replace(&mut self.outside.receipts, Vec::new(alloc))
    }

    /// Keeps the file as it is before a command.
    pub fn keep_file(&mut self, alloc: Global) -> Result<(), AllocError> {
        self.before = self.site.file().to_vec(alloc)?;
        Ok(())
    }

    /// Runs these words, with an orchestrator that says what is planned.
    fn run_words(&mut self, alloc: Global, words: &[Text]) -> Result<(), AllocError> {
        self.keep_file(alloc)?;
        let says = mem::replace(&mut self.outside.says, Vec::new(alloc));
        let (door, receipts) = (self.door(alloc), self.receipts(alloc));
        let mut orchestrator = Recorder::new(alloc, says)?;
        let (put, now) = (self.outside.put, self.outside.now);
        self.ran = run_over(
            alloc,
            words,
            &mut self.site,
            &mut self.spare,
            door,
            &mut orchestrator,
            receipts,
            put,
            now,
        )?;
        self.ran.bodies = mem::replace(&mut orchestrator.bodies, Vec::new(alloc));
        self.ran.locations = mem::replace(&mut orchestrator.locations, Vec::new(alloc));
        Ok(())
    }

    /// Runs these words, with the orchestrator that grants all.
    fn run_granted(&mut self, alloc: Global, words: &[Text]) -> Result<(), AllocError> {
        self.keep_file(alloc)?;
        let (door, receipts) = (self.door(alloc), self.receipts(alloc));
        let (put, now) = (self.outside.put, self.outside.now);
        self.ran = run_over(
            alloc,
            words,
            &mut self.site,
            &mut self.spare,
            door,
            &mut self.granting,
            receipts,
            put,
            now,
        )?;
        Ok(())
    }

    /// So many rounds without a connection, with the orchestrator that grants all.
    pub fn quiet_rounds(&mut self, alloc: Global, count: u64) -> Result<(), AllocError> {
        let words = rounds_words(alloc, count)?;
        self.run_granted(alloc, &words)
    }

    /// Plans the connection whose text stands at this place, where one does.
    fn plan_asked(&mut self, alloc: Global, act: &[Value], place: usize) -> Result<(), CaseFault> {
        match act.get(place) {
            Some(text) => self.plan_door(alloc, text),
            None => Ok(()),
        }
    }

    /// It was answered with what stands at this place, where something does.
    fn went_well(&self, alloc: Global, act: &[Value], place: usize) -> Result<(), ActFault> {
        match act.get(place) {
            Some(text) => self.is_answered(alloc, text),
            None => Ok(()),
        }
    }

    /// `["go", WORD..]`: runs these words.
    pub fn go(&mut self, alloc: Global, act: &[Value]) -> Result<(), ActFault> {
        let words = command_of(alloc, behind(act, 1))?;
        Ok(self.run_words(alloc, &words)?)
    }

    /// `["once", TEXT, TOLD]`: runs `once` with a connection of this text, which is told that and hung up, with status
    /// 0. Both may be left out, or the second.
    pub fn once(&mut self, alloc: Global, act: &[Value]) -> Result<(), ActFault> {
        self.plan_asked(alloc, act, 1)?;
        let words = words_of(alloc, &["once", "--journal", "j"])?;
        self.run_words(alloc, &words)?;
        self.went_well(alloc, act, 2)
    }

    /// `["rounds", N, TEXT, TOLD]`: runs so many rounds of `once` with the orchestrator that grants all, the first with
    /// a connection of this text, which is told that and hung up, with status 0. The texts may be left out, or the
    /// second.
    pub fn rounds(&mut self, alloc: Global, act: &[Value]) -> Result<(), ActFault> {
        self.plan_asked(alloc, act, 2)?;
        let words = rounds_words(alloc, number(act, 1)?)?;
        self.run_granted(alloc, &words)?;
        self.went_well(alloc, act, 3)
    }

    /// Answers the session of the connection that is planned, at this moment: how many replies were told.
    fn answer(&mut self, alloc: Global, now: u64) -> Result<Option<u32>, AllocError> {
        let door = self.door(alloc);
        let mut mouth = mouth_at(alloc, door)?;
        let mut clock = clock_at(alloc, now)?;
        let replies = serve(alloc, &mut self.site, &mut mouth, &mut clock);
        self.ran.told = mouth.door().conn().out().to_vec(alloc)?;
        Ok(replies)
    }

    /// `["answers", NOW, TEXT, TOLD]`: the session of a connection with this text, whose second write fails, is
    /// answered at this moment with this one reply. No turn is made behind it.
    pub fn answers(&mut self, alloc: Global, act: &[Value]) -> Result<(), ActFault> {
        let (now, asked, told) = (number(act, 1)?, part(act, 2)?, part(act, 3)?);
        self.keep_file(alloc)?;
        self.plan_second_write(alloc, asked)?;
        let replies = self.answer(alloc, now)?;
        let told = self.names.text(alloc, told)?;
        same_text(alloc, &told, &self.ran.told)?;
        has_replied(alloc, replies)
    }

    /// `["turn", ACTED, WAITING, UNREACHED]`: opens the journal and makes a turn, which comes to these counts, and
    /// leaves the file where it records nothing.
    pub fn turn(&mut self, alloc: Global, act: &[Value]) -> Result<(), ActFault> {
        self.keep_file(alloc)?;
        let made = one_turn(alloc, &mut self.site, &mut self.granting);
        let stays = self.site.file() == self.before.as_slice();
        has_made(alloc, act, made, stays)
    }

    /// `["renew"]`: the site behind what was done, with no call on its record.
    pub fn renew(&mut self, alloc: Global) -> Result<(), CaseFault> {
        self.earlier = Earlier::of(&self.site);
        self.site = self.site.stopped(alloc, self.site.moment(), Choice::Old)?;
        Ok(())
    }

    /// `["stop behind", CALLS]`: what a stop behind so many calls from the opening on leaves, where what isn't synced
    /// is lost.
    pub fn stop_behind(&mut self, alloc: Global, act: &[Value]) -> Result<(), CaseFault> {
        let moment = opening(&self.site).saturating_add(count(act, 1)?);
        self.site = self
            .site
            .stopped(alloc, moment.min(self.site.moment()), Choice::Old)?;
        Ok(())
    }

    /// `["stop behind the begin"]`: what a stop right behind the first begin leaves, where what isn't synced is lost.
    pub fn stop_behind_the_begin(&mut self, alloc: Global) -> Result<(), CaseFault> {
        let moment = behind_the_begin(&self.site).min(self.site.moment());
        self.site = self.site.stopped(alloc, moment, Choice::Old)?;
        Ok(())
    }
}
