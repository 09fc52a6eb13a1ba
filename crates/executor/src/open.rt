//! Opening a journal as a manager: each record is judged once, in order, as it is read, by the tables of those before
//! it.
ghost use Rattle.std.specs.Prelude.{◌≡◌, ◌<◌, ◌+◌, List, [], IfOk, OnOk, None, true};
ghost use Rattle.journal_core.specs.Load.{IsBegun, Loads};
ghost use Rattle.journal_core.specs.Asking.{FailsWhere};
ghost use Rattle.journal_records.specs.declared.limits.TheConstants.{MAX_FILE};
ghost use Rattle.executor.specs.Loading.{IsThrough, Judges, JudgesNext, JudgesAll};
ghost use Rattle.lcm_tables.specs.Tables.{AreTablesOf, HasSmallHistory};

use crate::manager::OpenFault;
use event_codec::{DecodeFault, decode, no_spelling_begins_another};
use journal_core::{Found, LoadFault, Loading, records_add_up};
use lcm_laws::serials_are_counted;
use lcm_tables::Tables;
use site_traits::Site;
use std::alloc::{AllocError, Global};

/// What a load knows so far.
#[derive(Drop)]
pub struct Judged {
    /// The tables of the events of the records so far, up to a bad one.
    pub tables: Tables,
    /// The first bad record, from 1.
    pub bad: Option<u64>,
}

/// Reads and judges the records that are left.
pub fn judge_all<S: Site>(
    alloc: Global,
    loading: &mut Loading<S>,
    site: &mut S,
) -> Result<Judged, OpenFault>
    requires begun { IsBegun loading.old }
    requires loads { S.tells → Loads [] loading.old (S.state site.old) }
    ensures judged { IfOk result (λ judged. IsThrough S.tells judged loading.new (S.state site.new)) }
    ensures told { S.tells → JudgesAll result loading.new (S.state site.old) (S.state site.new) }
    ensures ended { OnOk result (loading.new.ended ≡ true) }
    ensures manager { loading.new.manager ≡ loading.old.manager }
    ensures within { loading.new.total < MAX_FILE + MAX_FILE }
    ensures counts { FailsWhere (result ≡ Err OpenFault.Disk) (S.counts site.old) (S.counts site.new) }
{
    records_add_up();
    serials_are_counted();
    let mut judged = Judged::new(alloc, loading.manager());
    while let Found::Record = loading.next(site)? {
        judged.judge_next(alloc, loading.count(), loading.record_bytes())?;
    }
    Ok(judged)
}

impl Judged {
    /// No record was judged yet, of a journal of this manager.
    pub fn new(alloc: Global, manager: u32) -> Judged
        ensures bad { result.bad ≡ None }
        ensures tables { AreTablesOf manager result.tables [] }
    {
        Judged {
            tables: Tables::new(alloc, manager),
            bad: None,
        }
    }

    /// Judges the next record, unless one before it was bad. After want of memory nothing is known of the tables.
    pub fn judge_next(&mut self, alloc: Global, n: u64, bytes: &[u8]) -> Result<(), AllocError>
        requires small { self.old.bad ≡ None → HasSmallHistory self.old.tables }
        ensures { OnOk result (JudgesNext n bytes.now self.old self.new) }
    {
        if self.bad.is_some() {
            return Ok(());
        }
        if !judge(alloc, &mut self.tables, bytes)? {
            self.bad = Some(n);
        }
        Ok(())
    }
}

/// Judges a record: where it is the next event, lets the tables follow it and answers true.
fn judge(alloc: Global, tables: &mut Tables, bytes: &[u8]) -> Result<bool, AllocError>
    requires small { HasSmallHistory tables.old }
    ensures { IfOk result (λ good. Judges bytes.now good tables.old tables.new) }
{
    no_spelling_begins_another();
    let event = match decode(alloc, bytes) {
        Ok(event) => event,
        Err(DecodeFault::NotEvent) => return Ok(false),
        Err(DecodeFault::Memory) => return Err(AllocError),
    };
    if !tables.may_follow(alloc, &event.kind)? {
        return Ok(false);
    }
    tables.reserve_for(alloc, &event)?;
    tables.apply(&event);
    Ok(true)
}
