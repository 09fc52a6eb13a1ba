//! Acts that make the deliveries of a round, that ask which notice waits, and that compare what was posted with what a
//! whole life posts.

use crate::checks::{holds, is_text, same_number};
use crate::recorder::PostRecorder;
use crate::stage::Stage;
use case_lives::{
    ActFault, CaseFault, behind_lines, differs, first_records, front_of, has_line, list,
    made_until, number, posts_of, records_in, same_file, same_text, tell_of_these,
};
use executor::Manager;
use notify_outbox::{Deliveries, DeliveryFault, deliver_all};
use serde_json::Value;
use site_traits::{Courier, MemCourier, MemSite};
use std::alloc::{AllocError, Global};
use vnfm_base::Moment;

/// How the deliveries of a round ended: how many notices were taken and how many were posted and not, or why they were
/// ended.
fn end_text(alloc: Global, end: &Result<Deliveries, DeliveryFault>) -> Result<String, AllocError> {
    match end {
        Ok(made) => format!(in alloc; "{} {}", made.delivered, made.not_taken),
        Err(fault) => format!(in alloc; "{fault}"),
    }
}

/// Opens the journal and makes the deliveries of a round with this courier: how they ended.
fn deliveries_text<C: Courier>(
    alloc: Global,
    site: &mut MemSite,
    courier: &mut C,
) -> Result<String, AllocError> {
    let mut manager = match Manager::load(alloc, site) {
        Ok(manager) => manager,
        Err(fault) => return format!(in alloc; "unopened: {fault}"),
    };
    let now = Moment::of(1_700_000_000_000);
    end_text(alloc, &deliver_all(alloc, &mut manager, site, courier, now))
}

/// The place of the first notice that waits for a subscription; 0 where none does or it isn't live; none where the
/// journal isn't opened.
fn first_notice(alloc: Global, site: &mut MemSite, subscription: u64) -> Option<u64> {
    let manager = Manager::load(alloc, site).ok()?;
    Some(manager.first_notice(subscription).unwrap_or(0))
}

/// Puts the first so many of these lines, but those that are there.
fn keep_lines(into: &mut Vec<u8>, lines: &[u8], count: usize) -> Result<(), AllocError> {
    let mut from = 0;
    for number in 0..count {
        let to = behind_lines(lines, number.saturating_add(1));
        let line = lines.get(from..to).unwrap_or(&[]);
        if !has_line(into, line) {
            into.extend_from_slice(line)?;
        }
        from = to;
    }
    Ok(())
}

/// How the deliveries of a round ended in which any allocation may fail.
#[derive(Clone, Copy, PartialEq)]
enum Ended {
    /// So many notices were taken.
    Through(u64),
    /// There was no memory in it.
    Starved,
    /// The journal wasn't opened.
    Unopened,
    /// Otherwise, which is never to be.
    Otherwise,
}

/// Opens the journal and makes the deliveries of a round with this courier.
fn end_of_round(alloc: Global, site: &mut MemSite, courier: &mut MemCourier) -> Ended {
    let Ok(mut manager) = Manager::load(alloc, site) else {
        return Ended::Unopened;
    };
    let now = Moment::of(1_700_000_000_000);
    match deliver_all(alloc, &mut manager, site, courier, now) {
        Ok(
            Deliveries {
                delivered,
                not_taken: 0,
            },
        ) => Ended::Through(delivered),
        Err(DeliveryFault::Memory) => Ended::Starved,
        _ => Ended::Otherwise,
    }
}

/// Whether the deliveries of a round ended so where so many of these notices waited and so many posts stand behind it.
fn ended_as_said(end: Ended, waited: u64, stand: u64) -> bool {
    match end {
        Ended::Through(taken) => taken == waited && stand == waited,
        Ended::Starved => stand < waited,
        Ended::Unopened => stand == 0,
        Ended::Otherwise => false,
    }
}

/// The place, from 0, of the text that these bytes are; a number above all where they are none.
fn place_among(texts: &[Vec<u8>], bytes: &[u8]) -> u64 {
    for place in 0..texts.len() {
        if texts[place].as_slice() == bytes {
            return place as u64;
        }
    }
    u64::MAX
}

/// So many posts stand that were made, and they ended as it is said, or all is told.
fn stand_as_made(
    alloc: Global,
    end: Ended,
    waited: u64,
    stand: u64,
    made: u64,
) -> Result<(), ActFault> {
    if ended_as_said(end, waited, stand) && stand == made {
        return Ok(());
    }
    let word = match end {
        Ended::Through(_) => "through",
        Ended::Starved => "without memory",
        Ended::Unopened => "unopened",
        Ended::Otherwise => "otherwise",
    };
    Err(differs(
        String::from_str(alloc, "each post that was made is recorded")?,
        format!(in alloc; "{word}: {waited} waited, {made} were posted, {stand} stand")?,
    ))
}

impl Stage {
    /// `["deliveries", TEXT]`: opens the journal and makes the deliveries of a round, which end so: `DELIVERED
    /// NOT_TAKEN`, or what ended them. What is posted is answered as it is planned, and kept.
    pub fn makes_deliveries(&mut self, alloc: Global, act: &[Value]) -> Result<(), ActFault> {
        self.keep_file(alloc)?;
        let receipts = self.receipts(alloc);
        let mut courier = PostRecorder::new(alloc, receipts)?;
        let text = deliveries_text(alloc, &mut self.site, &mut courier)?;
        self.ran.posts = courier.posts.to_vec(alloc)?;
        is_text(alloc, &text, act, 1)
    }

    /// `["waits", SUBSCRIPTION, PLACE]`: the journal is opened, and the first notice that waits for this subscription
    /// is that of the event at this place; 0 where none waits, or it isn't live.
    pub fn waits(&mut self, alloc: Global, act: &[Value]) -> Result<(), ActFault> {
        match first_notice(alloc, &mut self.site, number(act, 1)?) {
            Some(place) => same_number(alloc, "waits for", number(act, 2)?, place),
            None => holds(alloc, false, "a notice that waits", "no journal"),
        }
    }

    /// `["starved posts", TEXT, TEXT..]`: opens the journal, in which as many subscriptions have a notice that waits
    /// as there are texts behind the first, and makes the deliveries of a round, and again, where at most one
    /// allocation of both fails. Behind each the file is the text by the number of posts that were made: none is made
    /// that isn't recorded. Where the first doesn't come through, the second does, and posts the others.
    /// tests/out_of_memory.sh lets each allocation fail in turn.
    pub fn is_starved_of_posts(&mut self, alloc: Global, act: &[Value]) -> Result<(), ActFault> {
        let files = self.texts(alloc, list(act, 1)?)?;
        let mut courier = MemCourier::new(alloc, Vec::new(alloc))?;
        let all = (files.len() as u64).saturating_sub(1);
        let first = end_of_round(alloc, &mut self.site, &mut courier);
        let stand = place_among(&files, self.site.file());
        stand_as_made(alloc, first, all, stand, courier.posts() as u64)?;
        let second = end_of_round(alloc, &mut self.site, &mut courier);
        let left = all.saturating_sub(stand);
        let more = place_among(&files, self.site.file()).saturating_sub(stand);
        let made = (courier.posts() as u64).saturating_sub(stand);
        stand_as_made(alloc, second, left, more, made)?;
        let is_through = first == Ended::Through(all) || second == Ended::Through(left);
        holds(
            alloc,
            is_through,
            "one of two rounds that comes through",
            "none",
        )
    }

    /// `["kept"]`: the file has the records that are left of the whole life behind those that it had before, and each
    /// notice that was posted until then tells of one of them.
    pub fn is_kept(&self, alloc: Global) -> Result<(), ActFault> {
        let records = self.whole.old_records.saturating_add(self.stop.records);
        let wanted = first_records(self.whole.site.file(), records);
        same_file(alloc, wanted, front_of(self.site.file()))?;
        let events = records_in(self.site.file());
        holds(
            alloc,
            tell_of_these(&self.whole.posts, self.stop.posts, events),
            "posts of events that stand",
            "one of another",
        )
    }

    /// `["posted so far"]`: the last command posted what the whole life posts until the fault at hand.
    pub fn has_posted_so_far(&self, alloc: Global) -> Result<(), ActFault> {
        let (front, _) = self.lines_at(self.stop.posts);
        same_text(alloc, front, &self.ran.posts)
    }

    /// `["posted again"]`: the last command posted what the whole life posts, but what is recorded behind the stop or
    /// the fault at hand.
    pub fn has_posted_again(&self, alloc: Global) -> Result<(), ActFault> {
        let (_, others) = self.lines_at(self.whole.recorded_posts(self.stop));
        same_text(alloc, others, &self.ran.posts)
    }

    /// So many lines of what the whole life posts, and the others.
    fn lines_at(&self, count: usize) -> (&[u8], &[u8]) {
        let lines = self.whole.lines.as_slice();
        let place = behind_lines(lines, count);
        (
            lines.get(..place).unwrap_or(lines),
            lines.get(place..).unwrap_or(&[]),
        )
    }

    /// Keeps what the last command posted up to this call on the site's record, but what lives before posted too.
    pub fn keep_posts(&mut self, alloc: Global, call: usize) -> Result<(), AllocError> {
        let posts = posts_of(alloc, &self.site)?;
        let count = made_until(&posts, call);
        keep_lines(&mut self.posted, &self.ran.posts, count)
    }
}
