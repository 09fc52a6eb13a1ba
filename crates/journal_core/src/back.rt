// The reading back of records, on from where the reader stands.
ghost use Rattle.std.specs.Prelude.{◌≡◌, ◌≤◌, ◌<◌, ◌+◌, ◌-◌, ℕ, List, [], IfOk, length, get_or, true};
ghost use Rattle.site_traits.specs.Counts.{DiskCause};
ghost use Rattle.site_traits.specs.Site.{Reads};
ghost use Rattle.journal_records.specs.File.{records_of_all};
ghost use Rattle.journal_core.specs.Back.{CanGive, HasGiven};

use journal_records::{Head, Reader};
use site_traits::{DiskFailed, Site};

/// Bytes that a reading back reads at once, or as many as the batch at hand lacks where that is more.
pub const BACK: usize = 8_192;

/// Why a record could not be read back.
#[derive(Drop)]
pub enum BackFault {
    /// The file has no record n any more. It never comes where the site tells its content.
    Broken(u64),
    /// A disk call failed. The journal is closed; load it again.
    Disk,
}

impl From<DiskFailed> for BackFault {
    ghost use Rattle.journal_core.specs.declared.back.BackFault.TheVariants.{Disk};

    ghost from_gives = { λ _ e. e ≡ Disk };

    fn from(_: DiskFailed) -> Self {
        BackFault::Disk
    }
}

/// Reads so many records on, the last of which the reader gives then, and says whether the file had them before `end`.
pub fn give_many<S: Site>(
    reader: &mut Reader,
    site: &mut S,
    end: u64,
    many: u64,
) -> Result<bool, DiskFailed>
    requires some { 1 ≤ many }
    requires told { S.tells → (bs : List (List (List ℕ))) × (given : ℕ)
        × CanGive bs given many reader.old end (S.state site.old).image }
    ensures given { S.tells → (bs : List (List (List ℕ))) (given : ℕ)
        → CanGive bs given many reader.old end (S.state site.old).image
        → IfOk result (λ all. (all ≡ true) × HasGiven bs (given + many) reader.new end (S.state site.new).image) }
    ensures told { S.tells → Reads (S.state site.old) (S.state site.new) }
    ensures cause { DiskCause (S.counts site.old) (S.counts site.new) result }
{
    for _ in 0..many {
        if !give_next(reader, site, end)? {
            return Ok(false);
        }
    }
    Ok(true)
}

// Reads one record on, and says whether the file had it before `end`.
fn give_next<S: Site>(reader: &mut Reader, site: &mut S, end: u64) -> Result<bool, DiskFailed>
    requires told { S.tells → (bs : List (List (List ℕ))) × (given : ℕ)
        × CanGive bs given 1 reader.old end (S.state site.old).image }
    ensures given { S.tells → (bs : List (List (List ℕ))) (given : ℕ)
        → CanGive bs given 1 reader.old end (S.state site.old).image
        → IfOk result (λ all. (all ≡ true) × HasGiven bs (given + 1) reader.new end (S.state site.new).image) }
    ensures told { S.tells → Reads (S.state site.old) (S.state site.new) }
    ensures cause { DiskCause (S.counts site.old) (S.counts site.new) result }
{
    if reader.is_in_batch() {
        reader.give();
        return Ok(true);
    }
    let Head::Open = reader.enter(site, end, BACK)? else {
        return Ok(false);
    };
    reader.give();
    Ok(true)
}
