//! A report of a journal: it is opened, what is asked for is found, and the events are told.
ghost use Rattle.std.specs.Prelude.{◌≡◌, List, false, true};
ghost use Rattle.executor.specs.Managed.{IsReady, Keeps};
ghost use Rattle.executor.specs.Questions.{is_made};
ghost use Rattle.journal_core.specs.Load.{SyncsAndReads};
ghost use Rattle.lcm_events.specs.declared.events.Event.{Event};
ghost use Rattle.history_report.specs.Naming.{Chooses, FindsNumber, FindsWhere, Reports, Tells};
ghost use Rattle.site_traits.specs.Site.{Reads};

use crate::chosen::Chosen;
use crate::lines::{TellFault, tell_lines};
use crate::page::tell_page;
use executor::{Manager, OpenFault};
use site_traits::{Sink, Site};
use std::alloc::Global;
use thiserror::Error;
use vnfm_base::{Kind, Text, ident_read};

/// Which events are to be told of, by the identifiers that a person gives.
#[derive(Drop)]
pub struct Wish {
    /// The identifier of an instance.
    pub instance: Option<Text>,
    /// The identifier of an occurrence.
    pub occurrence: Option<Text>,
    /// In which form.
    pub form: Form,
}

/// The form of a report.
#[derive(Clone, Copy, PartialEq, Eq)]
pub enum Form {
    /// A line for each event.
    Lines,
    /// One page for a browser.
    Page,
}

/// Why a journal wasn't reported, or not to its end.
#[derive(Debug, Drop, Error)]
pub enum ReportFault {
    /// The journal wasn't opened.
    #[error("{0}")]
    Open(OpenFault),
    /// No instance of the journal has this identifier.
    #[error("no such instance")]
    NoInstance,
    /// No occurrence of the journal has this identifier.
    #[error("no such occurrence")]
    NoOccurrence,
    /// Not all was told.
    #[error("{0}")]
    Tell(TellFault),
}

/// Opens the journal of a site's file as a manager opens it, and tells of the events that are wished for, a line each,
/// in the order in which they happened. It syncs the file and reads it twice, and changes nothing. The time is linear in
/// the file.
///
/// Refusals, in this order: `Open(why)`, as `Manager::load` refuses a file; `NoInstance` and `NoOccurrence` exactly where
/// the journal made none of that identifier; `Tell(why)`, behind which a front of the lines was put.
/// Source: own rule, docs/FORMATS.md.
pub fn report<S: Site, L: Sink>(
    alloc: Global,
    site: &mut S,
    wish: &Wish,
    out: &mut L,
) -> Result<(), ReportFault>
    ensures reports { S.tells → L.tells → Reports wish.now result (S.state site.new).image (L.state out.old)
        (L.state out.new) }
    ensures reads { S.tells → SyncsAndReads (S.state site.old) (S.state site.new) }
{
    let mut manager = Manager::load(alloc, site)?;
    let chosen = chosen_of(&manager, wish)?;
    tell(alloc, wish.form, &mut manager, site, chosen, out)?;
    Ok(())
}

/// Tells of the events that are chosen, in this form.
fn tell<S: Site, L: Sink>(
    alloc: Global,
    form: Form,
    manager: &mut Manager<S>,
    site: &mut S,
    chosen: Chosen,
    out: &mut L,
) -> Result<(), TellFault>
    requires ready { (H : List Event) × IsReady S.tells manager.old H (S.state site.old) }
    ensures told { (H : List Event) → IsReady S.tells manager.old H (S.state site.old) → S.tells → L.tells
        → Tells form manager.old.ledger.manager H chosen result (L.state out.old) (L.state out.new) }
    ensures reads { S.tells → Reads (S.state site.old) (S.state site.new) }
{
    match form {
        Form::Lines => tell_lines(alloc, manager, site, chosen, out),
        Form::Page => tell_page(alloc, manager, site, chosen, out),
    }
}

/// The numbers of what is wished for.
fn chosen_of<S: Site>(manager: &Manager<S>, wish: &Wish) -> Result<Chosen, ReportFault>
    requires usable { manager.now.ledger.closed ≡ false }
    requires kept { (H : List Event) × Keeps manager.now H }
    ensures { (H : List Event) → Keeps manager.now H → Chooses manager.now.ledger.manager H wish.now result }
{
    let Ok(instance) = number_where(manager, Kind::Instance, &wish.instance) else {
        return Err(ReportFault::NoInstance);
    };
    let Ok(occurrence) = number_where(manager, Kind::Occurrence, &wish.occurrence) else {
        return Err(ReportFault::NoOccurrence);
    };
    Ok(Chosen {
        instance,
        occurrence,
    })
}

/// Nothing of the kind has this identifier.
#[derive(Clone, Copy, Drop)]
struct NoSuch;

/// The number of what has this identifier, where one is given.
fn number_where<S: Site>(
    manager: &Manager<S>,
    kind: Kind,
    id: &Option<Text>,
) -> Result<Option<u64>, NoSuch>
    requires kind { is_made kind ≡ true }
    ensures { (H : List Event) → Keeps manager.now H
        → FindsWhere manager.now.ledger.manager H kind id.now result }
{
    match id {
        Some(id) => match number_of(manager, kind, id) {
            Some(n) => Ok(Some(n)),
            None => Err(NoSuch),
        },
        None => Ok(None),
    }
}

/// The number of what has this identifier, where it was made.
fn number_of<S: Site>(manager: &Manager<S>, kind: Kind, id: &Text) -> Option<u64>
    requires kind { is_made kind ≡ true }
    ensures { (H : List Event) → Keeps manager.now H → FindsNumber manager.now.ledger.manager H kind id.now result }
{
    let n = ident_read(id.as_bytes(), manager.number(), kind)?;
    if n <= manager.made(kind) {
        Some(n)
    } else {
        None
    }
}

impl From<OpenFault> for ReportFault {
    ghost use Rattle.history_report.specs.declared.reporting.ReportFault.TheVariants.{Open};

    ghost from_gives = { λ fault e. e ≡ Open fault };

    fn from(fault: OpenFault) -> ReportFault {
        ReportFault::Open(fault)
    }
}

impl From<TellFault> for ReportFault {
    ghost use Rattle.history_report.specs.declared.reporting.ReportFault.TheVariants.{Tell};

    ghost from_gives = { λ fault e. e ≡ Tell fault };

    fn from(fault: TellFault) -> ReportFault {
        ReportFault::Tell(fault)
    }
}
