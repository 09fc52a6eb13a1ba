//! Recording an event in a journal: it is spelled once, and it is on the disk before the tables follow it.
ghost use Rattle.std.specs.Prelude.{◌≡◌, ◌≢◌, ◌≤◌, ◌<◌, ◌+◌, List, length, IfErr, IfOk, OnOk, OnErr};
ghost use Rattle.event_codec.specs.Spell.{spelling};
ghost use Rattle.event_codec.specs.Valid.{IsEvent};
ghost use Rattle.event_codec.specs.Typed.{TypedEvent};
ghost use Rattle.executor.specs.Asking.{CommitAsks};
ghost use Rattle.executor.specs.Managed.{IsReady, IsWithinFile, KeepsOn, KeepsOne, MayPut, managed};
ghost use Rattle.executor.specs.Room.{IsRecordOf, TellsRoom, journal_end};
ghost use Rattle.executor.specs.Work.{WorksAtFile, recorded};
ghost use Rattle.journal_records.specs.declared.limits.TheConstants.{MAX_FILE, MAX_RECORD};
ghost use Rattle.lcm_events.specs.declared.events.Event.{Event};
ghost use Rattle.lcm_tables.specs.Tables.{HasRoom};
ghost use Rattle.site_traits.specs.Counts.{OnlyDiskFails};
ghost use Rattle.site_traits.specs.Site.{KeepsJobs};

use crate::manager::WorkFault;
use event_codec::{RecordBuf, encode};
use journal_core::{Journal, faults_are_counted, records_add_up};
use lcm_events::Event;
use lcm_tables::Tables;
use site_traits::Site;

/// Puts the event's spelling into the buffer, where the journal has room for it before byte `limit` of the file.
///
/// Refusals, in this order: `TooLong(n)` (bytes), `Full {end, more}` (bytes), each exactly where the spelling and the
/// limit say so.
pub fn spell_within<S: Site>(
    journal: &Journal<S>,
    buffer: &mut RecordBuf,
    e: &Event,
    limit: u64,
) -> Result<(), WorkFault>
    requires rules { TypedEvent e.now → IsEvent e.now }
    requires within { limit ≤ MAX_FILE }
    ensures event { IsEvent e.now }
    ensures spelled { OnOk result (IsRecordOf buffer.new.kept e.now journal.now.end) }
    ensures room { (H : List Event) → journal.now.end + journal.now.saved ≡ journal_end H
        → TellsRoom limit journal.now.saved H e.now result }
    ensures memory { result ≢ Err WorkFault.Memory }
    ensures disk { result ≢ Err WorkFault.Disk }
{
    records_add_up();
    let more = spell(buffer, e)?;
    if !journal.fits(more as usize, limit) {
        return Err(WorkFault::Full {
            end: journal.end(),
            more,
        });
    }
    Ok(())
}

/// Puts the event's spelling into the buffer, and gives the number of its bytes.
fn spell(buffer: &mut RecordBuf, e: &Event) -> Result<u32, WorkFault>
    requires rules { TypedEvent e.now → IsEvent e.now }
    ensures event { IsEvent e.now }
    ensures spelled { OnOk result (buffer.new.kept ≡ spelling e.now) }
    ensures some { 1 ≤ length (spelling e.now) }
    ensures length { IfOk result (λ n. (n ≡ length (spelling e.now)) × (n ≤ MAX_RECORD)) }
    ensures too_long { IfErr result (λ why. (why ≡ WorkFault.TooLong (length (spelling e.now)))
        × (MAX_RECORD < length (spelling e.now))) }
{
    encode(e, buffer)?;
    Ok(buffer.as_slice().len() as u32)
}

/// Appends the event's spelling, for which the file has room, and then lets the tables follow the event. No memory is
/// taken.
///
/// Refusal: `Disk`, after which the journal is closed, and the tables are those of the history that it had.
pub fn append_and_follow<S: Site>(
    journal: &mut Journal<S>,
    tables: &mut Tables,
    site: &mut S,
    bytes: &[u8],
    e: &Event,
) -> Result<(), WorkFault>
    requires may { (H : List Event) × IsReady S.tells (managed journal.old tables.old) H (S.state site.old)
        × MayPut journal.old.manager H e.now }
    requires event { IsEvent e.now }
    requires spelled { IsRecordOf bytes.now e.now journal.old.end }
    requires reserved { HasRoom e.now tables.old }
    ensures works { (H : List Event) → IsReady S.tells (managed journal.old tables.old) H (S.state site.old)
        → MayPut journal.old.manager H e.now
        → WorksAtFile S.tells journal.old.manager H (recorded H e.now result) (managed journal.new tables.new)
        (S.state site.old) (S.state site.new) }
    ensures jobs { S.tells → KeepsJobs (S.state site.old) (S.state site.new) }
    ensures keeps_one { KeepsOne (managed journal.new tables.new) }
    ensures within { IsWithinFile journal.new }
    ensures saved { journal.new.saved ≡ journal.old.saved }
    ensures keeps { OnErr result (KeepsOn (managed journal.old tables.old) (managed journal.new tables.new)) }
    ensures disk { IfErr result (λ why. why ≡ WorkFault.Disk) }
    ensures laid { tables.new.notice ≡ tables.old.notice }
    ensures asks { CommitAsks result (S.counts site.old) (S.counts site.new) }
    ensures counts { OnlyDiskFails (result ≡ Err WorkFault.Disk) (S.counts site.old) (S.counts site.new) }
{
    faults_are_counted();
    records_add_up();
    // How much is saved at most is needed to see that the history is a small one.
    let _saved = journal.saved();
    journal.append(site, bytes)?;
    tables.apply(e);
    Ok(())
}
