//! The lines of the events of a journal.
ghost use Rattle.std.specs.Prelude.{◌≡◌, ◌≢◌, ◌≤◌, ◌++◌, [], List, IfOk, OnOk, OnErr, Some, false, length, ℕ};
ghost use Rattle.executor.specs.Managed.{IsReady, Keeps};
ghost use Rattle.executor.specs.Reading.{event_in};
ghost use Rattle.journal_core.specs.Asking.{FailsWhere};
ghost use Rattle.lcm_events.specs.declared.events.Event.{Event};
ghost use Rattle.site_traits.specs.Site.{Reads};
ghost use Rattle.site_traits.specs.Sink.{Puts, SinkCause};
ghost use Rattle.history_report.specs.Telling.{IsFrontOf, line_at, line_of, lines};

use crate::chosen::{Chosen, row_of, vnfd_of};
use executor::{Manager, ReadFault};
use history_lines::push_line;
use lcm_events::Event;
use site_traits::{Sink, SinkFailed, Site};
use std::alloc::{AllocError, Global};
use thiserror::Error;

/// Lines are put once they have so many bytes.
const BLOCK: usize = 65_536;

/// Why not all was told.
#[derive(Debug, Drop, Error)]
pub enum TellFault {
    /// The file has no record n any more, or it is no event. It never comes where the site tells its content.
    #[error("bad record {0}")]
    BadRecord(u64),
    /// A disk call failed. The manager is closed: load the journal again.
    #[error("site fault")]
    Disk,
    /// A line couldn't be put.
    #[error("no output")]
    Output,
    /// Out of memory.
    #[error("no memory")]
    Memory,
}

/// Tells of the events that are chosen: puts the line of each, in the order in which they happened. It reads the file
/// once more, from front to back, and changes nothing. The time is linear in the file.
///
/// Condition: the manager isn't closed, and its file has its history.
/// Refusals: `BadRecord(n)`, `Disk`, `Output`, `Memory`. What was put before is a front of all lines.
/// Source: own rule, docs/FORMATS.md.
pub fn tell_lines<S: Site, L: Sink>(
    alloc: Global,
    manager: &mut Manager<S>,
    site: &mut S,
    chosen: Chosen,
    out: &mut L,
) -> Result<(), TellFault>
    requires ready { (H : List Event) × IsReady S.tells manager.old H (S.state site.old) }
    ensures told { (H : List Event) → IsReady S.tells manager.old H (S.state site.old) → S.tells → L.tells
        → OnOk result (L.state out.new ≡ L.state out.old ++ lines manager.old.ledger.manager H chosen) }
    ensures front { (H : List Event) → IsReady S.tells manager.old H (S.state site.old) → S.tells → L.tells
        → IsFrontOf (L.state out.old ++ lines manager.old.ledger.manager H chosen) (L.state out.new) }
    ensures reads { S.tells → Reads (S.state site.old) (S.state site.new) }
    ensures whole { S.tells → (n : ℕ) → result ≢ Err (TellFault.BadRecord n) }
    ensures counts { FailsWhere (result ≡ Err TellFault.Disk) (S.counts site.old) (S.counts site.new) }
{
    let mut text = Vec::new(alloc);
    let count = manager.records();
    'events: for k in 0..count {
        add_event(alloc, manager, site, chosen, k + 1, &mut text)?;
        if text.len() >= BLOCK {
            put_text(&mut text, out)?;
        }
    }
    put_text(&mut text, out)
}

/// Reads event `n` back, and adds its line where it is chosen.
fn add_event<S: Site>(
    alloc: Global,
    manager: &mut Manager<S>,
    site: &mut S,
    chosen: Chosen,
    n: u64,
    text: &mut Vec<u8>,
) -> Result<(), TellFault>
    requires some { 1 ≤ n }
    requires within { n ≤ manager.old.ledger.count }
    requires ready { (H : List Event) × IsReady S.tells manager.old H (S.state site.old) }
    ensures ready { (H : List Event) → IsReady S.tells manager.old H (S.state site.old)
        → result ≢ Err TellFault.Disk → IsReady S.tells manager.new H (S.state site.new) }
    ensures adds { (H : List Event) → IsReady S.tells manager.old H (S.state site.old) → S.tells
        → OnOk result (text.new.items ≡ text.old.items ++ line_at manager.old.ledger.manager H chosen n) }
    ensures number { manager.new.ledger.manager ≡ manager.old.ledger.manager }
    ensures reads { S.tells → Reads (S.state site.old) (S.state site.new) }
    ensures whole { S.tells → (n : ℕ) → result ≢ Err (TellFault.BadRecord n) }
    ensures put { result ≢ Err TellFault.Output }
    ensures counts { FailsWhere (result ≡ Err TellFault.Disk) (S.counts site.old) (S.counts site.new) }
{
    let event = manager.event_at(alloc, site, n)?;
    add_chosen(manager, chosen, n, &event, text)?;
    Ok(())
}

/// Adds the line of event `n` where it is chosen.
fn add_chosen<S: Site>(
    manager: &Manager<S>,
    chosen: Chosen,
    n: u64,
    event: &Event,
    text: &mut Vec<u8>,
) -> Result<(), AllocError>
    requires usable { manager.now.ledger.closed ≡ false }
    ensures { (H : List Event) → Keeps manager.now H → OnOk result (text.new.items
        ≡ text.old.items ++ line_of manager.now.ledger.manager H chosen n event.now) }
{
    let row = row_of(manager, &event.kind);
    if !chosen.takes(row, &event.kind) {
        return Ok(());
    }
    push_line(text, manager.number(), n, event, row, vnfd_of(manager, row))
}

/// Puts the text, and clears it.
fn put_text<L: Sink>(text: &mut Vec<u8>, out: &mut L) -> Result<(), TellFault>
    ensures told { L.tells → Puts text.old.items result (L.state out.old) (L.state out.new) }
    ensures cleared { OnOk result (text.new.items ≡ []) }
    ensures cause { SinkCause (L.counts out.old) (L.counts out.new) result }
    ensures fault { OnErr result (result ≡ Err TellFault.Output) }
{
    match out.put(text.as_slice()) {
        Ok(()) => {
            text.clear();
            Ok(())
        }
        Err(SinkFailed) => Err(TellFault::Output),
    }
}

impl From<ReadFault> for TellFault {
    ghost use Rattle.history_report.specs.Faults.{read_fault};

    ghost from_gives = { λ fault e. e ≡ read_fault fault };

    fn from(fault: ReadFault) -> TellFault {
        match fault {
            ReadFault::BadRecord(n) => TellFault::BadRecord(n),
            ReadFault::Disk => TellFault::Disk,
            ReadFault::Memory => TellFault::Memory,
        }
    }
}

impl From<AllocError> for TellFault {
    ghost use Rattle.history_report.specs.declared.lines.TellFault.TheVariants.{Memory};

    ghost from_gives = { λ _ e. e ≡ Memory };

    fn from(_: AllocError) -> TellFault {
        TellFault::Memory
    }
}
