//! Runs, act by act.
//!
//! An act is an array of a word and of what it takes, told by the method or the function that does it. A run goes well
//! where all its acts do, and ends at the first that doesn't. Of those that have acts in them,
//!
//! - `["each stop", CHOICE, ACT..]` lets the site be what a stop of the whole life leaves at each moment in turn, where
//!   what isn't synced is `old`, `new` or `torn`;
//! - `["each fault", ACT..]` plans for the next site that each disk call of the whole life fails in turn;
//! - `["each front", NAME, TEXT, ACT..]` gives that name to each front of the text in turn, but to the whole.
//!
//! They go on behind a stop, a fault or a front that goes wrong, and count the others that do.
//!
//! Within those, `["at records", FROM, TO, ACT]` and `["at calls", FROM, TO, ACT]` play the act where so many records
//! of the whole life are there, or so many of its disk calls were made behind its opening; `["unopened", ACT]` where a
//! call of the opening failed; `["at first", ACT]` and
//! `["at last", ACT]` at the first moment and at the last. Everywhere, `["times", N, ACT]` plays the act so many times.

use crate::checks::{Standing, are};
use crate::stage::Stage;
use case_lives::{
    ActFault, Calls, CaseFault, behind, calls_of, changes_standing, count, entries, list, number,
    part, word,
};
use serde_json::Value;
use site_traits::{Choice, DoorPlan, GrantPlan, MemOrchestrator, MemSite};
use std::alloc::{AllocError, Global};

/// Plays an act on the words of a command line, on the program that is started with them, or on levels.
fn spells(stage: &Stage, alloc: Global, act: &[Value]) -> Result<(), ActFault> {
    match word(act, 0)? {
        "start" => stage.starts(alloc, act, true),
        "start without a mouth" => stage.starts(alloc, act, false),
        "set" => stage.is_set(alloc, act),
        "line" => stage.is_explained(alloc, act),
        "page" => stage.is_page(alloc, act),
        "named" => stage.has_level(alloc, act),
        "aims" => stage.aims(alloc, act),
        _ => Err(ActFault::Unread(CaseFault::Spelling)),
    }
}

/// Plays an act that compares numbers: how many, since a site was made, there are of
///
/// - `["moment", N]` calls on its record; `["calls", BEGINS, LOOKS, ABORTS]` those on jobs among them; `["faults",
///   DISK, JOBS, LOOKS, REFUSALS]` failed disk calls, failed calls on jobs, failed looks among these, and refused
///   begins; `["clock", N]` readings of the clock by the last command;
/// - `["file length", N]` bytes of the file; `["grown", N]` bytes of it that the last command put;
/// - `["job count", N]` jobs; `["jobs", N, STANDING]` jobs and changes that stand by them; `["lost", N]` stops that
///   found an attempt without a job;
/// - `["alike", N]` connections of the last command, each of which was told the same and hung up;
/// - `["grants", N]` asks of the orchestrator that grants all, in this run; `["peer calls", ASKED, POLLED, FAULTS]`
///   answered asks and polls and failed calls of that with planned answers.
fn counts(stage: &Stage, alloc: Global, act: &[Value]) -> Result<(), ActFault> {
    let site = &stage.site;
    match word(act, 0)? {
        "moment" => are(alloc, act, &[site.moment() as u64]),
        "calls" => are_calls(alloc, act, calls_of(site)),
        "faults" => are_faults(alloc, act, site),
        "clock" => are(alloc, act, &[stage.ran.clock]),
        "file length" => are(alloc, act, &[site.file().len() as u64]),
        "grown" => are(alloc, act, &[stage.grown()]),
        "job count" => are(alloc, act, &[site.jobs() as u64]),
        "jobs" => are(
            alloc,
            act,
            &[site.jobs() as u64, changes_standing(site) as u64],
        ),
        "lost" => are(alloc, act, &[stage.lost as u64]),
        "alike" => are(alloc, act, &[stage.ran.alike as u64]),
        "grants" => are(alloc, act, &[stage.granting.asked() as u64]),
        "peer calls" => are_peer_calls(alloc, act, &stage.peer),
        _ => spells(stage, alloc, act),
    }
}

/// The numbers of an act are those of this orchestrator's answered asks and polls and failed calls.
fn are_peer_calls(alloc: Global, act: &[Value], peer: &MemOrchestrator) -> Result<(), ActFault> {
    let (asked, polled) = (peer.asked() as u64, peer.polled() as u64);
    are(alloc, act, &[asked, polled, peer.faults()])
}

/// The numbers of an act are those of this site's failed calls on the disk and on jobs, failed looks and refused
/// begins.
fn are_faults(alloc: Global, act: &[Value], site: &MemSite) -> Result<(), ActFault> {
    let (disk, jobs) = (site.faults(), site.vim_faults());
    are(
        alloc,
        act,
        &[disk, jobs, site.look_faults(), site.refusals()],
    )
}

/// The numbers of an act are those of these calls on jobs.
fn are_calls(alloc: Global, act: &[Value], calls: Calls) -> Result<(), ActFault> {
    let (begins, looks) = (calls.begins as u64, calls.looks as u64);
    are(alloc, act, &[begins, looks, calls.aborts as u64])
}

/// Plays an act that compares bytes with a text: of what the last connection was told, all with `["told", TEXT]`, the
/// front with `["told front", TEXT]` and a part with `["told part", TEXT]`; what the last command printed with
/// `["printed", TEXT]`; the bodies that the orchestrator with planned answers was asked with by it, with `["bodies",
/// TEXT]`, and the locations that it was polled at, with `["polled", TEXT]`, each with a line feed behind it; of the
/// file all with `["file", TEXT]`, the front with `["file front", TEXT]` and the end with `["file end", TEXT]`.
fn reads(stage: &Stage, alloc: Global, act: &[Value]) -> Result<(), ActFault> {
    let told = stage.ran.told.as_slice();
    match word(act, 0)? {
        "told" => stage.has_text(alloc, act, told, Standing::Whole),
        "told front" => stage.has_text(alloc, act, told, Standing::Front),
        "told part" => stage.has_text(alloc, act, told, Standing::Within),
        "printed" => stage.has_text(alloc, act, &stage.ran.printed, Standing::Whole),
        "bodies" => stage.has_text(alloc, act, &stage.ran.bodies, Standing::Whole),
        "polled" => stage.has_text(alloc, act, &stage.ran.locations, Standing::Whole),
        "file" => stage.has_file(alloc, act, false),
        "file front" => stage.has_file(alloc, act, true),
        "file end" => stage.has_text(alloc, act, stage.site.file(), Standing::End),
        _ => counts(stage, alloc, act),
    }
}

/// Plays an act that compares jobs, and the calls on them.
fn jobs(stage: &Stage, alloc: Global, act: &[Value]) -> Result<(), ActFault> {
    match word(act, 0)? {
        "done jobs" => stage.are_done(alloc, act),
        "job" => stage.has_job(alloc, act),
        "stands" => stage.job_stands(alloc, act),
        "does" => stage.job_does(alloc, act),
        "calls on jobs" => stage.has_calls(alloc, act),
        _ => reads(stage, alloc, act),
    }
}

/// Plays an act that compares what stands. `["stays"]`: the file is as it was before the last command; `["ended"]`: the
/// last connection was hung up;
/// `["answered", TEXT]`: the last command ended with 0, and its connection was told this and hung up; `["only
/// answered", TEXT]`: the same, and the file is as it was before.
fn finds(stage: &mut Stage, alloc: Global, act: &[Value]) -> Result<(), ActFault> {
    match word(act, 0)? {
        "stays" => stage.stays(alloc),
        "ended" => stage.has_hung_up(alloc),
        "answered" => stage.is_answered(alloc, part(act, 1)?),
        "only answered" => stage.is_only_answered(alloc, part(act, 1)?),
        "status" => stage.has_status(alloc, act),
        "steps" => stage.has_steps(alloc, act),
        "left" => stage.is_left(alloc),
        "again" => stage.is_again(alloc),
        "face" => stage.has_face(alloc, act),
        "instance" => stage.has_instance(alloc, act),
        _ => jobs(stage, alloc, act),
    }
}

/// Plays an act that runs a command, makes a turn or stops a life.
fn runs(stage: &mut Stage, alloc: Global, act: &[Value]) -> Result<(), ActFault> {
    match word(act, 0)? {
        "go" => stage.go(alloc, act),
        "once" => stage.once(alloc, act),
        "rounds" => stage.rounds(alloc, act),
        "answers" => stage.answers(alloc, act),
        "turn" => stage.turn(alloc, act),
        "fallen" => stage.fallen(alloc),
        "peer turn" => stage.makes_turn(alloc, act),
        "asks" => stage.asks(alloc, act),
        "starved" => stage.is_starved(alloc, act),
        "opened" => stage.is_opened(alloc, act),
        "descriptor" => stage.has_descriptor(alloc, act),
        "read back" => stage.is_read_back(alloc, act),
        "lives" => stage.lives(alloc, act, choice_at(act, 2)?),
        _ => delivers(stage, alloc, act),
    }
}

/// Plays an act about notices: one that makes the deliveries of a round, or one that compares what was posted with a
/// text: by the last command with `["posted", TEXT]`, each post a line of its status, or `fail`, its callback and its
/// body; by the short lives of the run, each line where it came first, with `["posted once", TEXT]`.
fn delivers(stage: &mut Stage, alloc: Global, act: &[Value]) -> Result<(), ActFault> {
    match word(act, 0)? {
        "deliveries" => stage.makes_deliveries(alloc, act),
        "waits" => stage.waits(alloc, act),
        "starved posts" => stage.is_starved_of_posts(alloc, act),
        "posted" => stage.has_text(alloc, act, &stage.ran.posts, Standing::Whole),
        "posted once" => stage.has_text(alloc, act, &stage.posted, Standing::Whole),
        "posted so far" => stage.has_posted_so_far(alloc),
        "posted again" => stage.has_posted_again(alloc),
        "kept" => stage.is_kept(alloc),
        _ => finds(stage, alloc, act),
    }
}

/// Plays an act that says what goes otherwise on the site or at the command that is next, that swaps the sites, or
/// another. On the next site
///
/// - `["room", N]` there is room for so many jobs;
/// - `["no fault"]` no disk call fails that `["fault", N..]` said before;
/// - `["blind", N]` the look or abort of that number, from 1 over both, fails; its file is empty.
///
/// At the next command
///
/// - `["sink", N]` the put of a line of that number, from 1, fails;
/// - `["now", N]` the clock gives so many milliseconds, from now on;
/// - `["pieces", N]` connections come in pieces of so many bytes, from now on;
/// - `["nobody"]` nobody comes, and with `["no door"]` the door fails;
/// - `["says nothing"]` the call of its orchestrator that comes next fails.
fn plans(stage: &mut Stage, alloc: Global, act: &[Value]) -> Result<(), ActFault> {
    match word(act, 0)? {
        "room" => stage.plan.jobs = count(act, 1)?,
        "no fault" => stage.plan.failing = Vec::new(alloc),
        "blind" => stage.plan.blind = Some(number(act, 1)?),
        "sink" => stage.outside.put = Some(number(act, 1)?),
        "now" => stage.outside.now = number(act, 1)?,
        "pieces" => stage.outside.piece = count(act, 1)?,
        "nobody" => stage.plan_door_as(DoorPlan::Nobody)?,
        "no door" => stage.plan_door_as(DoorPlan::NextFails)?,
        "says nothing" => stage.plan_grant(GrantPlan::Fail)?,
        "swap" => stage.swap_sites(),
        _ => return runs(stage, alloc, act),
    }
    Ok(())
}

/// An act that ended so goes well, where it could be played.
fn played(end: Result<(), CaseFault>) -> Result<(), ActFault> {
    Ok(end?)
}

/// Plays an act that prepares a command, or another.
fn plays(stage: &mut Stage, alloc: Global, act: &[Value]) -> Result<(), ActFault> {
    match word(act, 0)? {
        "let" => played(stage.name_text(alloc, act)),
        "keep" => played(stage.keep(alloc, act)),
        "keep records" => played(stage.keep_records(alloc, act)),
        "work" => played(stage.plan_work(alloc, act)),
        "fault" => played(stage.plan_faults(alloc, act)),
        "site" => played(stage.make_site(alloc, act)),
        "spare" => played(stage.make_spare(alloc, act)),
        "base" => played(stage.take_base(alloc)),
        "door" => played(stage.plan_door(alloc, part(act, 1)?)),
        "bad door" => played(stage.plan_bad_door(alloc, act)),
        "em door" => played(stage.plan_em_door(alloc, part(act, 1)?)),
        "cuts" => played(stage.plan_cuts(alloc, act)),
        "says" => played(stage.plan_answer(alloc, act)),
        "receipts" => played(stage.plan_receipts(alloc, act)),
        "peer" => played(stage.make_peer(alloc)),
        "renew" => played(stage.renew(alloc)),
        "life" => played(stage.take_life(alloc, act)),
        "stop behind" => played(stage.stop_behind(alloc, act)),
        "stop behind the begin" => played(stage.stop_behind_the_begin(alloc)),
        _ => plans(stage, alloc, act),
    }
}

/// Plays the act so many times.
fn plays_often(
    stage: &mut Stage,
    alloc: Global,
    act: &[Value],
    times: u64,
) -> Result<(), ActFault> {
    for _ in 0..times {
        plays(stage, alloc, act)?;
    }
    Ok(())
}

/// Plays an act, or one so many times.
fn plays_it(stage: &mut Stage, alloc: Global, act: &[Value]) -> Result<(), ActFault> {
    match word(act, 0)? {
        "times" => plays_often(stage, alloc, list(act, 2)?, number(act, 1)?),
        _ => plays(stage, alloc, act),
    }
}

/// Whether the number is one of those that stand from the second place of an act on, the first and the last.
fn is_between(act: &[Value], number: usize) -> Result<bool, CaseFault> {
    Ok(count(act, 1)? <= number && number <= count(act, 2)?)
}

/// Whether there is a number and it is one of those.
fn is_there(act: &[Value], number: Option<usize>) -> Result<bool, CaseFault> {
    match number {
        Some(number) => is_between(act, number),
        None => Ok(false),
    }
}

/// Plays the act at this place of an act where this holds.
fn plays_where(
    stage: &mut Stage,
    alloc: Global,
    act: &[Value],
    place: usize,
    holds: bool,
) -> Result<(), ActFault> {
    let inner = list(act, place)?;
    if holds {
        plays_it(stage, alloc, inner)
    } else {
        Ok(())
    }
}

/// Plays an act, or one that is only played at some stops.
fn plays_within(stage: &mut Stage, alloc: Global, act: &[Value]) -> Result<(), ActFault> {
    let (stop, last) = (stage.stop, stage.whole.site.moment());
    match word(act, 0)? {
        "at records" => plays_where(stage, alloc, act, 3, is_between(act, stop.records)?),
        "at calls" => plays_where(stage, alloc, act, 3, is_there(act, stop.calls)?),
        "unopened" => plays_where(stage, alloc, act, 1, stop.calls.is_none()),
        "at first" => plays_where(stage, alloc, act, 1, stop.place == 0),
        "at last" => plays_where(stage, alloc, act, 1, stop.place == last),
        _ => plays_it(stage, alloc, act),
    }
}

/// Where an act within another goes wrong.
pub struct Inner {
    /// The stop, the fault or the front, from 0.
    pub place: usize,
    /// The act there, from 1.
    pub act: usize,
    /// Its word.
    pub word: String,
}

impl Drop for Inner {
    // Written out, so that the proof of a caller calls it and doesn't take the value apart at each of its ends.
    fn drop(self) {
        let Inner {
            place: _,
            act: _,
            word: _,
        } = self;
    }
}

/// What goes wrong in an act of a run.
pub struct Failure {
    /// Why.
    pub fault: ActFault,
    /// Where, in an act that has acts in it.
    pub inner: Option<Inner>,
    /// How many other stops, faults or fronts go wrong there.
    pub others: usize,
}

impl Drop for Failure {
    // Written out, so that the proof of a caller calls it and doesn't take the value apart at each of its ends.
    fn drop(self) {
        let Failure {
            fault: _,
            inner: _,
            others: _,
        } = self;
    }
}

/// An act that has no acts in it goes wrong for this.
fn plainly(fault: ActFault) -> Failure {
    Failure {
        fault,
        inner: None,
        others: 0,
    }
}

/// The word that an act begins with, for a person; nothing where it begins with none.
pub fn word_told(alloc: Global, act: &Value) -> Result<String, AllocError> {
    match entries(act) {
        Ok(act) => String::from_str(alloc, first_word(act)),
        Err(_) => Ok(String::new(alloc)),
    }
}

/// The word that an act begins with; nothing where it begins with none.
fn first_word(act: &[Value]) -> &str {
    word(act, 0).unwrap_or("")
}

/// These acts go wrong at the stop at hand for this.
fn within(stage: &Stage, alloc: Global, acts: &[Value], fault: ActFault) -> Failure {
    let act = stage.stop.act;
    match word_told(alloc, acts.get(act).unwrap_or(&Value::Null)) {
        Ok(word) => Failure {
            fault,
            inner: Some(Inner {
                place: stage.stop.place,
                act: act.saturating_add(1),
                word,
            }),
            others: 0,
        },
        Err(_) => plainly(ActFault::Unread(CaseFault::Memory)),
    }
}

/// Plays these acts, up to the first that doesn't go well.
fn play_within(stage: &mut Stage, alloc: Global, acts: &[Value]) -> Result<(), ActFault> {
    for place in 0..acts.len() {
        stage.stop.act = place;
        plays_within(stage, alloc, entries(&acts[place])?)?;
    }
    Ok(())
}

/// Plays these acts at the stop at hand, and keeps what goes wrong first; behind that it counts.
fn play_there(stage: &mut Stage, alloc: Global, acts: &[Value], first: &mut Option<Failure>) {
    if let Err(fault) = play_within(stage, alloc, acts) {
        keep(first, within(stage, alloc, acts, fault));
    }
}

/// Keeps what goes wrong where nothing did before; else counts it.
fn keep(first: &mut Option<Failure>, failure: Failure) {
    match first {
        Some(kept) => kept.others = kept.others.saturating_add(1),
        None => *first = Some(failure),
    }
}

/// The choice of the word at this place of an act.
fn choice_at(act: &[Value], place: usize) -> Result<Choice, CaseFault> {
    match word(act, place)? {
        "old" => Ok(Choice::Old),
        "new" => Ok(Choice::New),
        "torn" => Ok(Choice::Torn),
        _ => Err(CaseFault::Spelling),
    }
}

/// Plays these acts behind each stop of the whole life: what goes wrong first, where something does.
fn play_stops(
    stage: &mut Stage,
    alloc: Global,
    choice: Choice,
    acts: &[Value],
) -> Result<Option<Failure>, CaseFault> {
    stage.lost = 0;
    let mut first = None;
    for moment in 0..stage.whole.site.moment().saturating_add(1) {
        stage.stop_at(alloc, moment, choice)?;
        play_there(stage, alloc, acts, &mut first);
    }
    Ok(first)
}

/// Plays these acts for each disk call of the whole life, which is to fail: what goes wrong first, where something
/// does.
fn play_faults(
    stage: &mut Stage,
    alloc: Global,
    acts: &[Value],
) -> Result<Option<Failure>, CaseFault> {
    let mut first = None;
    for call in 0..stage.disk_calls() {
        stage.fail_at(alloc, call)?;
        play_there(stage, alloc, acts, &mut first);
    }
    Ok(first)
}

/// Plays these acts for each front of this text, which has that name: what goes wrong first, where something does.
fn play_fronts(
    stage: &mut Stage,
    alloc: Global,
    name: &str,
    text: &[u8],
    acts: &[Value],
) -> Result<Option<Failure>, CaseFault> {
    let mut first = None;
    for length in 0..text.len() {
        stage.stop.place = length;
        stage.names.put(
            alloc,
            name,
            text.get(..length).unwrap_or(text).to_vec(alloc)?,
        )?;
        play_there(stage, alloc, acts, &mut first);
    }
    Ok(first)
}

/// Plays the acts that stand from the fourth place of an act on for each front of its text: what goes wrong first,
/// where something does.
fn play_each_front(
    stage: &mut Stage,
    alloc: Global,
    act: &[Value],
) -> Result<Option<Failure>, CaseFault> {
    let (name, value) = (word(act, 1)?, part(act, 2)?);
    let text = stage.names.text(alloc, value)?;
    play_fronts(stage, alloc, name, &text, behind(act, 3))
}

/// Plays an act that has no acts in it: what goes wrong, where something does.
fn play_plain(stage: &mut Stage, alloc: Global, act: &[Value]) -> Option<Failure> {
    match plays_it(stage, alloc, act) {
        Ok(()) => None,
        Err(fault) => Some(plainly(fault)),
    }
}

/// Plays an act of a run, or one with acts in it: what goes wrong, where something does.
fn play_any(stage: &mut Stage, alloc: Global, act: &[Value]) -> Result<Option<Failure>, CaseFault> {
    match word(act, 0)? {
        "each stop" => play_stops(stage, alloc, choice_at(act, 1)?, behind(act, 2)),
        "each fault" => play_faults(stage, alloc, behind(act, 1)),
        "each front" => play_each_front(stage, alloc, act),
        _ => Ok(play_plain(stage, alloc, act)),
    }
}

/// Plays an act of a run: what goes wrong, where something does.
pub fn play_act(stage: &mut Stage, alloc: Global, act: &Value) -> Option<Failure> {
    let played = match entries(act) {
        Ok(act) => play_any(stage, alloc, act),
        Err(fault) => Err(fault),
    };
    match played {
        Ok(failure) => failure,
        Err(fault) => Some(plainly(ActFault::Unread(fault))),
    }
}
