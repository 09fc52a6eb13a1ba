//! The page of a journal.
ghost use Rattle.std.specs.Prelude.{◌≡◌, ◌≢◌, ◌≤◌, List, OnErr, OnOk, false, ℕ};
ghost use Rattle.executor.specs.Managed.{IsReady, Keeps};
ghost use Rattle.journal_core.specs.Asking.{FailsWhere};
ghost use Rattle.lcm_events.specs.declared.events.Event.{Event};
ghost use Rattle.site_traits.specs.Site.{Reads};
ghost use Rattle.site_traits.specs.Sink.{Puts};
ghost use Rattle.history_report.specs.Telling.{PutsPage};

use crate::chosen::{Chosen, asked_row, is_behind, vnfd_of};
use crate::lines::TellFault;
use executor::Manager;
use history_page::{About, HistoryPage};
use lcm_events::Event;
use site_traits::{Sink, SinkFailed, Site};
use std::alloc::{AllocError, Global};
use vnfm_base::{Bytes, Kind};

/// So many of the latest operations a page shows where nothing is chosen.
const LATEST: u64 = 1_000;

/// Puts one page of HTML, in one call, of the events that are chosen; where neither an instance nor an occurrence is
/// named, of the latest 1,000 operations and of the instances' creations and deletions. It reads the file once more, from
/// front to back, and changes nothing.
///
/// Condition: the manager isn't closed, and its file has its history.
/// Refusals: `BadRecord(n)`, `Disk`, `Output`, `Memory`. Behind these nothing was put.
/// Source: own rule, docs/FORMATS.md.
pub fn tell_page<S: Site, L: Sink>(
    alloc: Global,
    manager: &mut Manager<S>,
    site: &mut S,
    chosen: Chosen,
    out: &mut L,
) -> Result<(), TellFault>
    requires ready { (H : List Event) × IsReady S.tells manager.old H (S.state site.old) }
    ensures page { L.tells → OnOk result (PutsPage (L.state out.old) (L.state out.new)) }
    ensures kept { L.tells → OnErr result (L.state out.new ≡ L.state out.old) }
    ensures reads { S.tells → Reads (S.state site.old) (S.state site.new) }
    ensures whole { S.tells → (n : ℕ) → result ≢ Err (TellFault.BadRecord n) }
    ensures counts { FailsWhere (result ≡ Err TellFault.Disk) (S.counts site.old) (S.counts site.new) }
{
    let mut page = HistoryPage::new(alloc, manager.number());
    let behind = shown_behind(manager, chosen);
    let count = manager.records();
    'events: for k in 0..count {
        show_event(alloc, manager, site, chosen, behind, k + 1, &mut page)?;
    }
    put_page(&page.written(alloc)?, out)
}

/// Puts the page in one call.
fn put_page<L: Sink>(page: &Bytes, out: &mut L) -> Result<(), TellFault>
    ensures told { L.tells → Puts page.now result (L.state out.old) (L.state out.new) }
    ensures fault { OnErr result (result ≡ Err TellFault.Output) }
{
    match out.put(page.as_slice()) {
        Ok(()) => Ok(()),
        Err(SinkFailed) => Err(TellFault::Output),
    }
}

/// The number behind which operations are shown: none is left out where something is chosen.
fn shown_behind<S: Site>(manager: &Manager<S>, chosen: Chosen) -> u64 {
    match chosen {
        Chosen {
            instance: None,
            occurrence: None,
        } => manager.made(Kind::Occurrence).saturating_sub(LATEST),
        _ => 0,
    }
}

/// Reads event `n` back, and shows it where it is chosen.
fn show_event<S: Site>(
    alloc: Global,
    manager: &mut Manager<S>,
    site: &mut S,
    chosen: Chosen,
    behind: u64,
    n: u64,
    page: &mut HistoryPage,
) -> Result<(), TellFault>
    requires some { 1 ≤ n }
    requires within { n ≤ manager.old.ledger.count }
    requires ready { (H : List Event) × IsReady S.tells manager.old H (S.state site.old) }
    ensures ready { (H : List Event) → IsReady S.tells manager.old H (S.state site.old)
        → result ≢ Err TellFault.Disk → IsReady S.tells manager.new H (S.state site.new) }
    ensures reads { S.tells → Reads (S.state site.old) (S.state site.new) }
    ensures whole { S.tells → (n : ℕ) → result ≢ Err (TellFault.BadRecord n) }
    ensures put { result ≢ Err TellFault.Output }
    ensures counts { FailsWhere (result ≡ Err TellFault.Disk) (S.counts site.old) (S.counts site.new) }
{
    let event = manager.event_at(alloc, site, n)?;
    show_chosen(alloc, manager, chosen, behind, n, &event, page)?;
    Ok(())
}

/// Shows event `n` where it is chosen.
fn show_chosen<S: Site>(
    alloc: Global,
    manager: &Manager<S>,
    chosen: Chosen,
    behind: u64,
    n: u64,
    event: &Event,
    page: &mut HistoryPage,
) -> Result<(), AllocError>
    requires usable { manager.now.ledger.closed ≡ false }
{
    let row = asked_row(manager, &event.kind);
    if !chosen.takes(row, &event.kind) || !is_behind(behind, &event.kind) {
        return Ok(());
    }
    let about = match (row, vnfd_of(manager, row)) {
        (Some(row), Some(vnfd)) => Some(About { row, vnfd }),
        _ => None,
    };
    page.follow(alloc, n, event, about)
}
