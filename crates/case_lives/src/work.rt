//! The work of a job, as runs spell it.

use lcm_events::{Act, DefKind, Verb};
use std::alloc::{AllocError, Global};

/// The word of what is done.
fn verb_word(verb: Verb) -> &'static str {
    match verb {
        Verb::Create => "create",
        Verb::Remove => "remove",
        Verb::Start => "start",
        Verb::Stop => "stop",
    }
}

/// The word of what it is done to.
fn kind_word(kind: DefKind) -> &'static str {
    match kind {
        DefKind::Link => "link",
        DefKind::Storage => "storage",
        DefKind::Compute => "compute",
        DefKind::Port => "port",
    }
}

/// The work of a job: what is done to what, the template, the VDU, the serial number, the connection, the zone, the
/// size, the processors, and behind them the resources that it is done on, each behind a space.
pub fn work_text(alloc: Global, work: &Act) -> Result<String, AllocError> {
    let (verb, kind) = (verb_word(work.verb), kind_word(work.kind));
    let (template, vdu) = (work.template.as_str(), work.vdu.as_str());
    let (vim, zone) = (work.vim.as_str(), work.zone.as_str());
    let (serial, size, cpus) = (work.serial, work.size, work.cpus);
    let mut text = format!(in alloc;
        "{verb} {kind} {template} {vdu} {serial} {vim} {zone} {size} {cpus}"
    )?;
    put_resources(&mut text, work)?;
    Ok(text)
}

/// Puts the resources that this work is done on, each behind a space.
fn put_resources(text: &mut String, work: &Act) -> Result<(), AllocError> {
    for name in work.on.as_slice() {
        text.push_str(" ")?;
        text.push_str(name.as_str())?;
    }
    Ok(())
}
