//! Reading a journal of format 1: each record is judged once, in order, as it is read, by the tables of those before it,
//! and packed.
ghost use Rattle.std.specs.Prelude.{◌≡◌, [], IfErr, IfOk};
ghost use Rattle.site_traits.specs.Counts.{Ask, asked};
ghost use Rattle.journal_core.specs.Asking.{FailsWhere};
ghost use Rattle.journal_core.specs.Load.{SyncsAndReads};
ghost use Rattle.old_journal.specs.Load.{IsBegun, Loads};
ghost use Rattle.journal_migration.specs.Reading.{IsRead, IsThrough, ReadsAll, RefusesOld};

use crate::packing::Packing;
use executor::{Judged, OpenFault};
use journal_core::{Found, records_add_up};
use lcm_laws::serials_are_counted;
use old_journal::{OldJournal, OldLoading};
use site_traits::Site;
use std::alloc::Global;

/// A journal that was read and packed.
#[derive(Drop)]
pub struct Packed {
    /// The number of its manager.
    pub manager: u32,
    /// How many records it has.
    pub count: u64,
    /// Its records, packed.
    pub packing: Packing,
}

/// Reads the journal of a site's file of format 1, judges each record, and packs them. It reads each byte once, and
/// holds the packed file.
///
/// Refusals: those of `Manager::load`, of a file of format 1.
/// Source: own format, docs/JOURNAL.md and docs/EVENTS.md.
pub fn read_packed<S: Site>(alloc: Global, site: &mut S) -> Result<Packed, OpenFault>
    ensures read { IfOk result (λ packed. IsRead S.tells packed (S.state site.new).image) }
    ensures refused { S.tells → IfErr result (λ why. RefusesOld why (S.state site.new).image) }
    ensures told { S.tells → SyncsAndReads (S.state site.old) (S.state site.new) }
    ensures counts { FailsWhere (result ≡ Err OpenFault.Disk) (asked Ask.sync (S.counts site.old))
        (S.counts site.new) }
{
    let mut loading = OldJournal::open(alloc, site)?;
    let (judged, packing) = read_all(alloc, &mut loading, site)?;
    if let Some(n) = judged.bad {
        return Err(OpenFault::BadRecord(n));
    }
    Ok(Packed {
        manager: loading.manager(),
        count: loading.count(),
        packing,
    })
}

// Reads, judges and packs the records that are left.
fn read_all<S: Site>(
    alloc: Global,
    loading: &mut OldLoading<S>,
    site: &mut S,
) -> Result<(Judged, Packing), OpenFault>
    requires begun { IsBegun loading.old }
    requires loads { S.tells → Loads [] loading.old (S.state site.old) }
    ensures read { IfOk result (λ read. IsThrough S.tells read.0 read.1 loading.new (S.state site.new)) }
    ensures told { S.tells → ReadsAll result loading.new (S.state site.old) (S.state site.new) }
    ensures manager { loading.new.manager ≡ loading.old.manager }
    ensures counts { FailsWhere (result ≡ Err OpenFault.Disk) (S.counts site.old) (S.counts site.new) }
{
    records_add_up();
    serials_are_counted();
    let mut judged = Judged::new(alloc, loading.manager());
    let mut packing = Packing::new(alloc, loading.manager())?;
    while let Found::Record = loading.next(site)? {
        judged.judge_next(alloc, loading.count(), loading.record_bytes())?;
        packing.add(loading.record_bytes())?;
    }
    packing.finish()?;
    Ok((judged, packing))
}
