//! Acts that make turns with an orchestrator whose answers are planned or that gives none, and that open a journal and
//! ask its manager.

use crate::checks::{holds, is_text};
use crate::stage::Stage;
use case_lives::{ActFault, CaseFault, about, differs, list, name, number, part, same_text, truth};
use executor::{Manager, WorkFault};
use lcm_events::Event;
use occ_work::{Turn, turn};
use serde_json::Value;
use site_traits::{Call, Heard, MemOrchestrator, MemSite, Orchestrator};
use std::alloc::{AllocError, Global};
use std::mem;
use vnfm_base::{Kind, Line, Moment, Name};

/// An orchestrator that gives no answer, and keeps the body that it was asked with last.
#[derive(Drop)]
struct Listener {
    body: Vec<u8>,
    faults: u64,
}

impl Orchestrator for Listener {
    ghost use Rattle.std.specs.Prelude.{[]};

    ghost tells = { ⊥ };

    ghost state = { λ _. record { answers = []; asked = []; polled = [] } };

    ghost counts = { λ o. record { calls = o.faults; faults = o.faults } };

    fn ask(&mut self, body: &[u8], _heard: &mut Heard) -> Call {
        self.faults = self.faults.saturating_add(1);
        self.body.truncate(0);
        if self.body.extend_from_slice(body).is_err() {
            self.body.truncate(0);
        }
        Call::Failed
    }

    fn poll(&mut self, _location: &Line, _heard: &mut Heard) -> Call {
        self.faults = self.faults.saturating_add(1);
        Call::Failed
    }
}

/// How a turn ended: what it acted, waited for and didn't reach, or why it was ended.
fn end_text(alloc: Global, end: &Result<Turn, WorkFault>) -> Result<String, AllocError> {
    match end {
        Ok(turn) => format!(in alloc; "{} {} {}", turn.acted, turn.waiting, turn.unreached),
        Err(fault) => format!(in alloc; "{fault}"),
    }
}

/// Opens the journal and makes a turn with this orchestrator: how that ended.
fn turn_text<O: Orchestrator>(
    alloc: Global,
    site: &mut MemSite,
    peer: &mut O,
) -> Result<String, AllocError> {
    let mut manager = match Manager::load(alloc, site) {
        Ok(manager) => manager,
        Err(fault) => return format!(in alloc; "unopened: {fault}"),
    };
    let now = Moment::of(1_700_000_000_000);
    end_text(alloc, &turn(alloc, &mut manager, site, peer, now))
}

/// Opens the journal and makes a turn with an orchestrator that gives no answer: the body that it is asked with last.
fn asked_last(alloc: Global, site: &mut MemSite) -> Result<Vec<u8>, AllocError> {
    let mut listener = Listener {
        body: Vec::new(alloc),
        faults: 0,
    };
    let _end = turn_text(alloc, site, &mut listener)?;
    Ok(listener.body)
}

/// Opens the journal: what its manager says of how much there is.
fn opened_text(alloc: Global, site: &mut MemSite) -> Result<String, AllocError> {
    let manager = match Manager::load(alloc, site) {
        Ok(manager) => manager,
        Err(fault) => return format!(in alloc; "{fault}"),
    };
    let (records, descriptors) = (manager.records(), manager.descriptors());
    let (made, live) = (manager.made(Kind::Instance), manager.live(Kind::Instance));
    format!(in alloc; "{records} records, {descriptors} descriptors, {made} instances, {live} live")
}

/// An event, as acts spell it: what happened, to the one of which number, and when.
fn told_event(alloc: Global, event: &Event) -> Result<String, AllocError> {
    let (word, number) = about(event);
    let moment = event.moment.milliseconds();
    format!(in alloc; "{word} {number} at {moment}")
}

/// What a manager reads back at this place of its history.
fn event_text(alloc: Global, site: &mut MemSite, place: u64) -> Result<String, AllocError> {
    let mut manager = match Manager::load(alloc, site) {
        Ok(manager) => manager,
        Err(fault) => return format!(in alloc; "unopened: {fault}"),
    };
    if place == 0 || manager.records() < place {
        return String::from_str(alloc, "no such record");
    }
    match manager.event_at(alloc, site, place) {
        Ok(event) => told_event(alloc, &event),
        Err(fault) => format!(in alloc; "{fault}"),
    }
}

/// Whether the manager of the journal has the descriptor of this name; none where the journal isn't opened.
fn has_descriptor(alloc: Global, site: &mut MemSite, name: &Name) -> Option<bool> {
    let manager = Manager::load(alloc, site).ok()?;
    Some(manager.vnfd(name).is_some())
}

/// How a turn of two acts ended in which any allocation may fail.
#[derive(Clone, Copy, PartialEq)]
enum Ended {
    /// Both acts were recorded.
    Through,
    /// There was no memory in it.
    Starved,
    /// The journal wasn't opened.
    Unopened,
    /// Otherwise, which is never to be.
    Otherwise,
}

/// Opens the journal and makes such a turn with this orchestrator.
fn end_of_turn(alloc: Global, site: &mut MemSite, peer: &mut MemOrchestrator) -> Ended {
    let Ok(mut manager) = Manager::load(alloc, site) else {
        return Ended::Unopened;
    };
    let now = Moment::of(1_700_000_000_000);
    match turn(alloc, &mut manager, site, peer, now) {
        Ok(
            Turn {
                acted: 2,
                waiting: 0,
                unreached: 0,
            },
        ) => Ended::Through,
        Err(WorkFault::Memory) => Ended::Starved,
        _ => Ended::Otherwise,
    }
}

/// Whether a turn of two grants that ended so, behind which so many of them stand, asked as often as that says.
fn asked_as_said(end: Ended, stand: Option<usize>, asked: usize) -> bool {
    match (end, stand) {
        (Ended::Through, Some(2)) => asked == 2,
        (Ended::Starved, Some(0)) => asked <= 1,
        (Ended::Starved, Some(1)) => asked == 1 || asked == 2,
        (Ended::Unopened, Some(0)) => asked == 0,
        _ => false,
    }
}

/// The word for how a turn of two acts ended.
fn ended_word(end: Ended) -> &'static str {
    match end {
        Ended::Through => "through",
        Ended::Starved => "without memory",
        Ended::Unopened => "unopened",
        Ended::Otherwise => "otherwise",
    }
}

/// A turn of two grants didn't leave what its end says.
fn otherwise(
    alloc: Global,
    which: &str,
    end: Ended,
    stand: Option<usize>,
) -> Result<ActFault, AllocError> {
    let (word, stand) = (ended_word(end), stand.unwrap_or(usize::MAX));
    Ok(differs(
        String::from_str(
            alloc,
            "grants that stand and were asked for as the turns ended",
        )?,
        format!(in alloc; "{which} turn: {word}, {stand} grants stand behind the first")?,
    ))
}

/// The place, from 0, of the text that these bytes are.
fn place_among(texts: &[Vec<u8>], bytes: &[u8]) -> Option<usize> {
    for place in 0..texts.len() {
        if texts[place].as_slice() == bytes {
            return Some(place);
        }
    }
    None
}

impl Stage {
    /// The texts that are spelled so.
    pub fn texts(&self, alloc: Global, values: &[Value]) -> Result<Vec<Vec<u8>>, CaseFault> {
        let mut texts = Vec::new(alloc);
        for value in values {
            texts.push(self.names.text(alloc, value)?)?;
        }
        Ok(texts)
    }

    /// Makes a turn of two grants and the turn behind it: the acts before one that is out of memory stand, and the next
    /// turn goes on from them.
    fn stands(
        &mut self,
        alloc: Global,
        granted: &[Vec<u8>],
        turned: &[Vec<u8>],
    ) -> Result<(), ActFault> {
        let first = end_of_turn(alloc, &mut self.site, &mut self.peer);
        let stand = place_among(granted, self.site.file());
        let asked = self.peer.asked();
        if !asked_as_said(first, stand, asked) {
            return Err(otherwise(alloc, "first", first, stand)?);
        }
        let second = end_of_turn(alloc, &mut self.site, &mut self.peer);
        let goes_on = second != Ended::Through || place_among(turned, self.site.file()) == stand;
        if goes_on && (first == Ended::Through || second == Ended::Through) {
            return Ok(());
        }
        Err(otherwise(alloc, "second", second, stand)?)
    }

    /// `["starved", [TEXT, TEXT, TEXT], [TEXT, TEXT, TEXT]]`: opens the journal and makes a turn that grants two
    /// occurrences, and again, where at most one allocation of both fails. Behind the first the file is one of the
    /// first texts: none, one or both are granted, as the turn ended and asked; where it didn't come through, the
    /// second does, and the file is then that of the same place of the other texts. tests/out_of_memory.sh lets each
    /// allocation fail in turn.
    pub fn is_starved(&mut self, alloc: Global, act: &[Value]) -> Result<(), ActFault> {
        let granted = self.texts(alloc, list(act, 1)?)?;
        let turned = self.texts(alloc, list(act, 2)?)?;
        self.stands(alloc, &granted, &turned)
    }

    /// `["peer"]`: the orchestrator of the turns that follow gives the answers that are planned.
    pub fn make_peer(&mut self, alloc: Global) -> Result<(), CaseFault> {
        let says = mem::replace(&mut self.outside.says, Vec::new(alloc));
        self.peer = MemOrchestrator::new(alloc, says)?;
        Ok(())
    }

    /// `["peer turn", TEXT]`: opens the journal and makes a turn with that orchestrator, which ends so: `ACTED WAITING
    /// UNREACHED`, or what ended it.
    pub fn makes_turn(&mut self, alloc: Global, act: &[Value]) -> Result<(), ActFault> {
        let text = turn_text(alloc, &mut self.site, &mut self.peer)?;
        is_text(alloc, &text, act, 1)
    }

    /// `["asks", TEXT]`: opens the journal and makes a turn with an orchestrator that gives no answer, which is asked
    /// last with this body.
    pub fn asks(&mut self, alloc: Global, act: &[Value]) -> Result<(), ActFault> {
        let body = self.names.text(alloc, part(act, 1)?)?;
        same_text(alloc, &body, &asked_last(alloc, &mut self.site)?)
    }

    /// `["opened", TEXT]`: the journal is opened, and its manager has so many records, descriptors and instances, or it
    /// isn't, for this cause.
    pub fn is_opened(&mut self, alloc: Global, act: &[Value]) -> Result<(), ActFault> {
        let text = opened_text(alloc, &mut self.site)?;
        is_text(alloc, &text, act, 1)
    }

    /// `["descriptor", NAME, TRUTH]`: the journal is opened, and its manager has the descriptor of this name, or
    /// hasn't.
    pub fn has_descriptor(&mut self, alloc: Global, act: &[Value]) -> Result<(), ActFault> {
        let has = has_descriptor(alloc, &mut self.site, &name(act, 1)?);
        let is_so = has == Some(truth(act, 2)?);
        holds(
            alloc,
            is_so,
            "the descriptor as it is said",
            "the other, or no journal",
        )
    }

    /// `["read back", PLACE, TEXT]`: the journal is opened, and its event at this place, from 1, is read back as this.
    pub fn is_read_back(&mut self, alloc: Global, act: &[Value]) -> Result<(), ActFault> {
        let text = event_text(alloc, &mut self.site, number(act, 1)?)?;
        is_text(alloc, &text, act, 2)
    }
}
