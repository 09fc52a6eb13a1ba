// The making of a journal file. Its first byte is written last, once all behind it is on the disk.
ghost use Rattle.std.specs.Prelude.{◌≡◌, ◌≤◌, ◌<◌, ◌↔◌, [], ◌∷◌, ℕ, List, IsTrue, IfOk, length, take, drop, nat_lt};
ghost use Rattle.site_traits.specs.Counts.{Ask, asked, Asks, DiskCause};
ghost use Rattle.site_traits.specs.Counts.Ask.{cut, sync};
ghost use Rattle.site_traits.specs.Site.{KeepsJobs, Reads};
ghost use Rattle.journal_records.specs.File.{header};
ghost use Rattle.journal_core.specs.Header.{made, IsUnfinished};
ghost use Rattle.journal_core.specs.Load.{SyncsAndReads};
ghost use Rattle.journal_core.specs.Asking.{CreateAsks, to_make, through};
ghost use Rattle.journal_core.specs.Create.{Creates, MakesFile, Steps, LengthIs, StandsSo, IsEmpty, IsFilled, IsBegun, IsWhole};

use crate::journal::Journal;
use crate::through::write_through;
use site_traits::{DiskFailed, Site};

/// Why a journal file could not be made.
#[derive(Drop)]
pub enum CreateFault {
    /// The file isn't unfinished for this manager. It is as it was.
    Taken,
    /// A disk call failed. An unfinished file is unfinished or made.
    Disk,
}

impl From<DiskFailed> for CreateFault {
    ghost use Rattle.journal_core.specs.declared.create.CreateFault.TheVariants.{Disk};

    ghost from_gives = { λ _ e. e ≡ Disk };

    fn from(_: DiskFailed) -> Self {
        CreateFault::Disk
    }
}

impl<S: Site> Journal<S> {
    /// Makes the file of this manager's journal, with no record, out of an unfinished one.
    ///
    /// Refusals, in this order: `Taken` exactly where the file isn't unfinished for this manager, after which it is as
    /// it was; `Disk`.
    /// Source: own format, docs/JOURNAL.md.
    pub fn create(site: &mut S, manager: u32) -> Result<(), CreateFault>
        ensures told { S.tells → Creates manager result (S.state site.old) (S.state site.new) }
        ensures jobs { S.tells → KeepsJobs (S.state site.old) (S.state site.new) }
        ensures asks { CreateAsks S.tells (length (S.state site.old).image) result (S.counts site.old)
            (S.counts site.new) }
    {
        make_file(site, manager, &made_bytes(manager))
    }
}

/// Makes a file of these bytes, which begin with the header of this manager, out of an unfinished one. Its first byte is
/// written last, once all behind it is on the disk: at every moment the file is unfinished, or it has all of them.
///
/// Refusals, in this order: `Taken` exactly where the file isn't unfinished for this manager, after which it is as it
/// was; `Disk`.
/// Source: own format, docs/JOURNAL.md.
pub fn make_file<S: Site>(site: &mut S, manager: u32, bytes: &[u8]) -> Result<(), CreateFault>
    requires { take 32 bytes.now ≡ header manager }
    ensures told { S.tells → MakesFile manager bytes.now result (S.state site.old) (S.state site.new) }
    ensures jobs { S.tells → KeepsJobs (S.state site.old) (S.state site.new) }
    ensures asks { CreateAsks S.tells (length (S.state site.old).image) result (S.counts site.old)
        (S.counts site.new) }
{
    let Some(len) = unfinished_length(site, manager)? else {
        return Err(CreateFault::Taken);
    };
    make_anew(site, manager, len, bytes)?;
    Ok(())
}

/// The bytes of a made file of this manager with no record.
///
/// Source: own format, docs/JOURNAL.md.
#[tactic(auto, unfolding(journal_records::specs::File::header))]
pub fn made_bytes(manager: u32) -> [u8; 33]
    ensures { result ≡ made manager }
{
    let [a, b, c, d] = manager.to_be_bytes();
    [
        86, 78, 70, 77, 45, 76, 67, 77, 2, a, b, c, d, 0, 0, 0, 0, 0, 0, 0, 0, 0, 0, 0, 0, 0, 0, 0,
        0, 0, 0, 0, 0,
    ]
}

// Makes the file out of an unfinished one of so many bytes, of which it leaves one at most.
fn make_anew<S: Site>(site: &mut S, manager: u32, len: u64, bytes: &[u8]) -> Result<(), DiskFailed>
    requires whole { take 32 bytes.now ≡ header manager }
    requires unfinished { S.tells → StandsSo (IsUnfinished manager) (S.state site.old) }
    requires long { S.tells → len ≡ length (S.state site.old).image }
    ensures told { S.tells → Steps manager bytes.now (IsWhole bytes.now) result (S.state site.old) (S.state site.new) }
    ensures asks { Asks (to_make (nat_lt 1 len)) result (S.counts site.old) (S.counts site.new) }
{
    if len > 1 {
        shorten(site, manager, bytes)?;
        return make(site, manager, bytes);
    }
    make(site, manager, bytes)
}

// Cuts an unfinished file to one byte.
fn shorten<S: Site>(site: &mut S, manager: u32, bytes: &[u8]) -> Result<(), DiskFailed>
    requires unfinished { S.tells → StandsSo (IsUnfinished manager) (S.state site.old) }
    requires longer { S.tells → 1 < length (S.state site.old).image }
    ensures told { S.tells → Steps manager bytes.now IsEmpty result (S.state site.old) (S.state site.new) }
    ensures asks { Asks (cut ∷ sync ∷ []) result (S.counts site.old) (S.counts site.new) }
{
    site.cut(1)?;
    site.sync()
}

// Makes a file of at most one byte.
fn make<S: Site>(site: &mut S, manager: u32, bytes: &[u8]) -> Result<(), DiskFailed>
    requires whole { take 32 bytes.now ≡ header manager }
    requires empty { S.tells → StandsSo IsEmpty (S.state site.old) }
    ensures told { S.tells → Steps manager bytes.now (IsWhole bytes.now) result (S.state site.old) (S.state site.new) }
    ensures asks { Asks (through 3) result (S.counts site.old) (S.counts site.new) }
{
    begin(site, manager, bytes)?;
    fill_and_finish(site, manager, bytes)
}

// What is left of the making of a file that is one `v`.
fn fill_and_finish<S: Site>(site: &mut S, manager: u32, bytes: &[u8]) -> Result<(), DiskFailed>
    requires whole { take 32 bytes.now ≡ header manager }
    requires begun { S.tells → StandsSo IsBegun (S.state site.old) }
    ensures told { S.tells → Steps manager bytes.now (IsWhole bytes.now) result (S.state site.old) (S.state site.new) }
    ensures asks { Asks (through 2) result (S.counts site.old) (S.counts site.new) }
{
    fill(site, manager, bytes)?;
    finish(site, manager, bytes)
}

// Writes the first byte of an unfinished file.
fn begin<S: Site>(site: &mut S, manager: u32, bytes: &[u8]) -> Result<(), DiskFailed>
    requires empty { S.tells → StandsSo IsEmpty (S.state site.old) }
    ensures told { S.tells → Steps manager bytes.now IsBegun result (S.state site.old) (S.state site.new) }
    ensures asks { Asks (through 1) result (S.counts site.old) (S.counts site.new) }
{
    write_through(site, 0, b"v")
}

// Writes all of a file but its first byte.
fn fill<S: Site>(site: &mut S, manager: u32, bytes: &[u8]) -> Result<(), DiskFailed>
    requires whole { take 32 bytes.now ≡ header manager }
    requires begun { S.tells → StandsSo IsBegun (S.state site.old) }
    ensures told { S.tells → Steps manager bytes.now (IsFilled bytes.now) result (S.state site.old)
        (S.state site.new) }
    ensures asks { Asks (through 1) result (S.counts site.old) (S.counts site.new) }
{
    write_through(site, 1, &bytes[1..])
}

// Writes the first byte of a file that has all the others.
fn finish<S: Site>(site: &mut S, manager: u32, bytes: &[u8]) -> Result<(), DiskFailed>
    requires whole { take 32 bytes.now ≡ header manager }
    requires filled { S.tells → StandsSo (IsFilled bytes.now) (S.state site.old) }
    ensures told { S.tells → Steps manager bytes.now (IsWhole bytes.now) result (S.state site.old) (S.state site.new) }
    ensures asks { Asks (through 1) result (S.counts site.old) (S.counts site.new) }
{
    write_through(site, 0, b"V")
}

/// Whether the file is unfinished for this manager, so that it may be made. What was pending is on the disk first; the
/// file is as it was.
///
/// Source: own format, docs/JOURNAL.md.
pub fn may_be_made<S: Site>(site: &mut S, manager: u32) -> Result<bool, DiskFailed>
    ensures unfinished { S.tells → IfOk result (λ may. IsTrue may ↔ IsUnfinished manager (S.state site.old).image) }
    ensures told { S.tells → SyncsAndReads (S.state site.old) (S.state site.new) }
    ensures cause { DiskCause (asked Ask.sync (S.counts site.old)) (S.counts site.new) result }
{
    Ok(unfinished_length(site, manager)?.is_some())
}

// Syncs, and gives the length of the file; None where it isn't unfinished for this manager.
fn unfinished_length<S: Site>(site: &mut S, manager: u32) -> Result<Option<u64>, DiskFailed>
    ensures length { S.tells → IfOk result (λ found. StandsSo (LengthIs manager found) (S.state site.new)) }
    ensures told { S.tells → SyncsAndReads (S.state site.old) (S.state site.new) }
    ensures cause { DiskCause (asked Ask.sync (S.counts site.old)) (S.counts site.new) result }
{
    site.sync()?;
    let len = site.length()?;
    if is_unfinished_at(site, len, manager)? {
        Ok(Some(len))
    } else {
        Ok(None)
    }
}

// Whether the file, which has `len` bytes, is unfinished for this manager.
fn is_unfinished_at<S: Site>(site: &mut S, len: u64, manager: u32) -> Result<bool, DiskFailed>
    requires long { S.tells → len ≡ length (S.state site.old).image }
    ensures unfinished { S.tells → IfOk result (λ is. IsTrue is ↔ IsUnfinished manager (S.state site.old).image) }
    ensures told { S.tells → Reads (S.state site.old) (S.state site.new) }
    ensures cause { DiskCause (S.counts site.old) (S.counts site.new) result }
{
    let mut bytes = [0u8; 32];
    let held = if len < 32 { len as usize } else { 32 };
    site.read_at(0, &mut bytes[..held])?;
    Ok(is_unfinished(&bytes[..held], manager))
}

// Whether a file is unfinished, by its first 32 bytes, or all where it has fewer.
fn is_unfinished(front: &[u8], manager: u32) -> bool
    ensures { (image : List ℕ) → front.now ≡ take 32 image → IsTrue result ↔ IsUnfinished manager image }
{
    if front.len() < 2 || front[0] == b'v' {
        return true;
    }
    front[0] != b'V' && is_rest(front, manager)
}

// Whether bytes 1 to 31 are those of a header of this manager.
fn is_rest(front: &[u8], manager: u32) -> bool
    ensures { IsTrue result ↔ (drop 1 front.now ≡ drop 1 (header manager)) }
{
    let made = made_bytes(manager);
    front.len() == 32 && front[1..] == made[1..32]
}
