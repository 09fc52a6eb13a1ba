//! The migration of a journal of format 1 to another file, in the present format.
ghost use Rattle.std.specs.Prelude.{◌≡◌};
ghost use Rattle.site_traits.specs.Counts.{Ask, asked, OnlyDiskFails};
ghost use Rattle.site_traits.specs.Site.{KeepsJobs};
ghost use Rattle.executor.specs.declared.manager.OpenFault.{OpenFault};
ghost use Rattle.journal_core.specs.Asking.{FailsWhere};
ghost use Rattle.journal_core.specs.Load.{SyncsAndReads};
ghost use Rattle.journal_migration.specs.Migrating.{MigratesFrom};
ghost use Rattle.journal_migration.specs.Reading.{RefusesOld};
ghost use Rattle.journal_migration.specs.Writing.{IsPackingOf, RefusesFull, WritesPacked};

use crate::packing::{Full, Packing};
use crate::reading::read_packed;
use executor::OpenFault;
use journal_core::{CreateFault, faults_are_counted, make_file, may_be_made};
use site_traits::{DiskFailed, Site};
use std::alloc::Global;
use thiserror::Error;

/// Why a journal wasn't migrated.
#[derive(Debug, Drop, Error)]
pub enum MigrateFault {
    /// The old file isn't a journal of format 1 that can be opened. The new one is as it was.
    #[error("{0}")]
    Open(OpenFault),
    /// The new file isn't unfinished for the old journal's manager. It is as it was.
    #[error("taken")]
    Taken,
    /// The packed records are too many for a file: the first batch for which it has no room would begin at `end`, with
    /// `more` bytes of content. The new file is as it was.
    #[error("journal full: {end} + {more} bytes")]
    Full {
        /// The place at which the batch would begin.
        end: u64,
        /// The bytes of its content.
        more: u32,
    },
    /// A disk call on the new file failed. An unfinished file is unfinished or migrated.
    #[error("site fault")]
    Disk,
}

/// Reads the journal of format 1 in the old site's file, and makes the new site's file of it, in the present format and
/// packed: with the same manager, the same events, and nothing else. It gives the number of events.
///
/// The old file is as it was, whatever the answer. The new one is unfinished or made whole at every moment, so that after
/// a stop the migration is simply made again.
///
/// Refusals, in this order: `Open(why)`, as `Manager::load` refuses a file, but of format 1; `Taken` exactly where the
/// new file isn't unfinished for the manager; `Full {end, more}` (bytes); `Disk`.
/// Source: own format, docs/JOURNAL.md.
pub fn migrate<S: Site, T: Site>(
    alloc: Global,
    old: &mut S,
    new: &mut T,
) -> Result<u64, MigrateFault>
    ensures refused { (why : OpenFault) → result ≡ Err (MigrateFault.Open why)
        → (new.new ≡ new.old) × (S.tells → RefusesOld why (S.state old.old).image) }
    ensures migrates { S.tells → T.tells → MigratesFrom (S.state old.old).image result (T.state new.old)
        (T.state new.new) }
    ensures old { S.tells → SyncsAndReads (S.state old.old) (S.state old.new) }
    ensures jobs { T.tells → KeepsJobs (T.state new.old) (T.state new.new) }
    ensures old_counts { FailsWhere (result ≡ Err (MigrateFault.Open OpenFault.Disk))
        (asked Ask.sync (S.counts old.old)) (S.counts old.new) }
    ensures counts { OnlyDiskFails (result ≡ Err MigrateFault.Disk) (T.counts new.old) (T.counts new.new) }
{
    let packed = read_packed(alloc, old)?;
    write_packed(new, packed.manager, &packed.packing)?;
    Ok(packed.count)
}

// Makes the file of this manager's packed records out of an unfinished one.
fn write_packed<T: Site>(new: &mut T, manager: u32, packing: &Packing) -> Result<(), MigrateFault>
    requires { IsPackingOf manager packing.now }
    ensures told { T.tells → WritesPacked manager packing.now result (T.state new.old) (T.state new.new) }
    ensures jobs { T.tells → KeepsJobs (T.state new.old) (T.state new.new) }
    ensures counts { OnlyDiskFails (result ≡ Err MigrateFault.Disk) (T.counts new.old) (T.counts new.new) }
    ensures opened { (why : OpenFault) → result ≡ Err (MigrateFault.Open why) → ⊥ }
{
    faults_are_counted();
    if let Some(unfit) = packing.unfit() {
        return refuse_full(new, manager, unfit);
    }
    make_file(new, manager, packing.as_slice())?;
    Ok(())
}

// Says that a file has no room for this batch, unless it isn't unfinished for this manager.
fn refuse_full<T: Site>(new: &mut T, manager: u32, unfit: Full) -> Result<(), MigrateFault>
    ensures told { T.tells → RefusesFull manager unfit result (T.state new.old) (T.state new.new) }
    ensures jobs { T.tells → KeepsJobs (T.state new.old) (T.state new.new) }
    ensures counts { OnlyDiskFails (result ≡ Err MigrateFault.Disk) (T.counts new.old) (T.counts new.new) }
    ensures opened { (why : OpenFault) → result ≡ Err (MigrateFault.Open why) → ⊥ }
{
    if !may_be_made(new, manager)? {
        return Err(MigrateFault::Taken);
    }
    let Full { end, more } = unfit;
    Err(MigrateFault::Full { end, more })
}

impl From<OpenFault> for MigrateFault {
    ghost use Rattle.journal_migration.specs.declared.migration.MigrateFault.TheVariants.{Open};

    ghost from_gives = { λ fault e. e ≡ Open fault };

    fn from(fault: OpenFault) -> MigrateFault {
        MigrateFault::Open(fault)
    }
}

impl From<DiskFailed> for MigrateFault {
    ghost use Rattle.journal_migration.specs.declared.migration.MigrateFault.TheVariants.{Disk};

    ghost from_gives = { λ _ e. e ≡ Disk };

    fn from(_: DiskFailed) -> MigrateFault {
        MigrateFault::Disk
    }
}

impl From<CreateFault> for MigrateFault {
    ghost use Rattle.journal_migration.specs.Writing.{created_fault};

    ghost from_gives = { λ fault e. e ≡ created_fault fault };

    fn from(fault: CreateFault) -> MigrateFault {
        match fault {
            CreateFault::Taken => MigrateFault::Taken,
            CreateFault::Disk => MigrateFault::Disk,
        }
    }
}
