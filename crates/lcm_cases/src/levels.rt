//! Acts about the levels of a descriptor, which the program doesn't ask for: those of a name, and those that an ask
//! aims at.
//!
//! A descriptor is the text of an Onboarded, and an ask that of an Asked (docs/EVENTS.md).

use crate::checks::is_text;
use crate::stage::Stage;
use case_lives::{ActFault, CaseFault, code, descriptor, event_of, list, name, operation, part};
use lcm_events::{Ask, Event, Holding, Listed, Vnfd};
use lcm_model::are_levels_in;
use lcm_plans::{level_of, target, vnfd_valid};
use serde_json::Value;
use std::alloc::{AllocError, Global};
use vnfm_base::Name;

/// The levels of the instantiation level of this name, or why there are none.
fn named_text(alloc: Global, vnfd: &Vnfd, level: &Name) -> Result<String, AllocError> {
    if !vnfd_valid(vnfd) {
        return String::from_str(alloc, "no such descriptor");
    }
    match level_of(alloc, vnfd, level) {
        Ok(levels) => format!(in alloc; "{:?}", levels.as_slice()),
        Err(fault) => format!(in alloc; "{fault}"),
    }
}

/// The levels of the instantiation level of this name of the descriptor that was onboarded, or why there are none.
fn level_text(alloc: Global, onboarded: &Event, level: &Name) -> Result<String, CaseFault> {
    Ok(named_text(alloc, descriptor(onboarded)?, level)?)
}

/// An instance at these levels, of which nothing stands.
fn at_levels(alloc: Global, numbers: &[Value]) -> Result<Holding, CaseFault> {
    let mut levels = Listed::new(alloc);
    for place in 0..numbers.len() {
        levels.push(code(numbers, place)?)?;
    }
    Ok(Holding {
        instantiated: true,
        started: true,
        levels,
        top: Listed::new(alloc),
        items: Listed::new(alloc),
    })
}

/// The levels that an ask of an instance aims at, or why it aims at none.
fn aim_text(
    alloc: Global,
    vnfd: &Vnfd,
    holding: &Holding,
    ask: &Ask,
) -> Result<String, AllocError> {
    if !vnfd_valid(vnfd) || !are_levels_in(vnfd, holding.levels.as_slice()) {
        return String::from_str(alloc, "no such levels");
    }
    match target(alloc, vnfd, holding, ask) {
        Ok(levels) => format!(in alloc; "{:?}", levels.as_slice()),
        Err(fault) => format!(in alloc; "{fault}"),
    }
}

impl Stage {
    /// The event whose text stands at this place of an act.
    fn event(&self, alloc: Global, act: &[Value], place: usize) -> Result<Event, CaseFault> {
        let text = self.names.text(alloc, part(act, place)?)?;
        event_of(alloc, &text)
    }

    /// `["named", ONBOARDED, NAME, TEXT]`: the descriptor's instantiation level of this name has these levels, or there
    /// are none, for this cause.
    pub fn has_level(&self, alloc: Global, act: &[Value]) -> Result<(), ActFault> {
        let level = name(act, 2)?;
        let onboarded = self.event(alloc, act, 1)?;
        is_text(alloc, &level_text(alloc, &onboarded, &level)?, act, 3)
    }

    /// `["aims", ONBOARDED, LEVELS, ASKED, TEXT]`: from these levels the ask aims at those, or at none, for this cause.
    pub fn aims(&self, alloc: Global, act: &[Value]) -> Result<(), ActFault> {
        let from = at_levels(alloc, list(act, 2)?)?;
        let onboarded = self.event(alloc, act, 1)?;
        is_text(alloc, &self.aim(alloc, &onboarded, &from, act)?, act, 4)
    }

    /// What the ask whose text stands at the fourth place of an act aims at, of an instance of this descriptor at these
    /// levels.
    fn aim(
        &self,
        alloc: Global,
        onboarded: &Event,
        from: &Holding,
        act: &[Value],
    ) -> Result<String, CaseFault> {
        let vnfd = descriptor(onboarded)?;
        let asked = self.event(alloc, act, 3)?;
        Ok(aim_text(alloc, vnfd, from, &operation(&asked)?.ask)?)
    }
}
