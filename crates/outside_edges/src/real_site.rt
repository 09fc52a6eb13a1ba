//! The journal's real file, under its exclusive lock.
ghost use Rattle.std.specs.Prelude.{◌≡◌, ◌≤◌, ◌+◌, ◌∷◌, IfOk, OnErr, OnOk, IsErr, None, length, take, drop, true};
ghost use Rattle.std.specs.Prelude.{Some, if◌then◌else◌};
ghost use Rattle.std.specs.Int.{w32, from_be_bytes};
ghost use Rattle.std.specs.IoError.{error_kind};
ghost use Rattle.site_traits.specs.Counts.{Ask, asked, DiskCause, abort_counts, begin_counts, look_counts, one_more};
ghost use Rattle.site_traits.specs.Site.{Aborts, Begins, Cuts, Looks, Reads, Syncs, Writes};
ghost use Rattle.outside_edges.specs.Faults.{CountsOne};
ghost use Rattle.host_calls.specs.Files.{free, new_file};
ghost use Rattle.outside_edges.specs.Having.{Goes, IsLent, LeavesAll, MakesAtAll, Seeks, lost_by, lost_in, to_lend};
ghost use Rattle.outside_edges.specs.Having.{to_name};
ghost use Rattle.outside_edges.specs.Jobs.{JobCall};
ghost use Rattle.outside_edges.specs.Site.{counts_of, manager_by, number_in, state_in, IsHad, IsExplained, IsHeld};
ghost use Rattle.outside_edges.specs.Site.{IsWhyBehind, OneCall, why_by};

use crate::counted::{count_call, count_fault};
use crate::jobs::Jobs;
use host_calls::{HostFile, HostFiles};
use lcm_events::{Act, Tag};
use site_traits::{AbortAnswer, BeginAnswer, DiskFailed, LookAnswer, Site};
use standard_streams::HeldStreams;
use std::alloc::AllocError;
use std::io;
use std::io::ErrorKind;

/// Where a journal's file has the manager's number.
const MANAGER_AT: u64 = 9;

/// When the folder of the journal's file is synced, so that the file's name is on the disk.
#[derive(Clone, Copy, PartialEq, Eq)]
pub enum FolderSync {
    /// Each time, since the name of a file that is there already may never have reached the disk.
    Always,
    /// Where the file is made.
    WhereMade,
}

/// Why the journal's file couldn't be had, or why a disk call on it failed.
#[derive(Clone, Copy)]
pub enum WhyLost {
    /// Another has its lock.
    Locked,
    /// There is no such folder.
    NoFolder,
    /// It may not be read or written.
    NotPermitted,
    /// Its file system is read-only.
    ReadOnly,
    /// It is no regular file.
    NotAFile,
    /// It is a symbolic link to nothing.
    DanglingLink,
    /// Its symbolic links form a loop, or are too many.
    LinkLoop,
    /// A name in its path, or the whole path, is too long.
    NameTooLong,
    /// Its file system has no space or no inode left.
    NoSpace,
    /// The quota on its file system is used up.
    Quota,
    /// It would be larger than a file may be.
    TooLarge,
    /// It was removed while it was open.
    Removed,
    /// It was moved while it was open, so that nothing stands at its path.
    Moved,
    /// Another file stands at its path.
    Replaced,
    /// It is shorter than it was.
    Shortened,
    /// There was no memory.
    Memory,
    /// The disk failed, or something else did.
    Other,
}

/// The journal's file, and the jobs of an infrastructure. Until the file is opened, and where it couldn't be had, every
/// call on it fails. Each call that fails is counted, and each begin that is refused.
///
/// It holds the file's exclusive lock until it is dropped, so that no second manager writes to it. It tells what its
/// file tells.
#[derive(Drop)]
pub struct RealSite<F: HostFile, J: Jobs<F>> {
    file: Option<F>,
    why: Option<WhyLost>,
    jobs: J,
    faults: u64,
    vim_faults: u64,
    look_faults: u64,
    refusals: u64,
    writes: u64,
    cuts: u64,
    syncs: u64,
}

impl<F: HostFile + Drop, J: Jobs<F> + Drop> RealSite<F, J> {
    /// A site of which no file was opened yet, with these jobs.
    pub fn made(jobs: J) -> RealSite<F, J>
        ensures { result ≡ record {
          file = None;
          why = None;
          jobs = jobs;
          faults = 0;
          vim_faults = 0;
          look_faults = 0;
          refusals = 0;
          writes = 0;
          cuts = 0;
          syncs = 0;
        } }
    {
        RealSite {
            file: None,
            why: None,
            jobs,
            faults: 0,
            vim_faults: 0,
            look_faults: 0,
            refusals: 0,
            writes: 0,
            cuts: 0,
            syncs: 0,
        }
    }

    /// Opens a connection to the infrastructure where none is open. It answers false only where a fault was counted.
    pub fn connect(&mut self) -> bool
        ensures faults { self.new.vim_faults ≡ (if result then self.old.vim_faults else one_more self.old.vim_faults) }
        ensures rest { self.new ≡ record self.old { jobs = self.new.jobs; vim_faults = self.new.vim_faults } }
        ensures asks { J.calls self.new.jobs ≡ JobCall.connecting result ∷ J.calls self.old.jobs }
        ensures manager { J.manager self.new.jobs ≡ J.manager self.old.jobs }
    {
        let open = self.jobs.connect();
        if !open {
            count_fault(&mut self.vim_faults);
        }
        open
    }

    /// How often a call on the infrastructure failed.
    pub fn vim_faults(&self) -> u64
        ensures { result ≡ self.now.vim_faults }
    {
        self.vim_faults
    }

    /// Opens the file at this path, which is made empty where there is none. Where that, or `folder`, asks for it, its
    /// folder is synced, since a file whose name is lost holds nothing, and else it isn't. What is opened is had once
    /// it is a regular file, then is locked, and then its pages are dropped, so that it is read from the disk. No file
    /// here is a standard stream, since those are held.
    ///
    /// Where it can't be had, `why` says the cause: that of the first call that failed, behind which no other is made.
    /// Whatever stood at a path then stands as it did, with its content and mode; a file that was made is empty.
    ///
    /// Its one refusal is want of memory.
    pub fn open<H: HostFiles<File = F>>(
        &mut self,
        host: &mut H,
        streams: &HeldStreams<H::Held>,
        path: &str,
        folder: FolderSync,
    ) -> Result<(), AllocError>
        ensures had { H.tells → F.tells → OnOk result (IsHeld F.state F.hold path.now folder self.new.file
            (H.state host.old) (H.state host.new)) }
        ensures seeks { H.tells → Seeks path.now folder (lost_by result self.new.why) (H.state host.old)
            (H.state host.new) }
        ensures stands { H.tells → LeavesAll path.now (H.state host.old) (H.state host.new) }
        ensures why { OnOk result (IsExplained self.new.file self.new.why) }
        ensures refused { OnErr result (self.new ≡ self.old) }
        ensures counts { counts_of self.new ≡ counts_of self.old }
        ensures jobs { self.new.jobs ≡ self.old.jobs }
    {
        match found(host, streams, path, folder) {
            Ok(file) => {
                self.file = Some(file);
                self.why = None;
                Ok(())
            }
            Err(WhyLost::Memory) => Err(AllocError),
            Err(why) => {
                self.file = None;
                self.why = Some(why);
                Ok(())
            }
        }
    }

    /// Why the file couldn't be had, where it was asked for and couldn't; else why the last disk call on it that failed
    /// did, where one did.
    pub fn why(&self) -> Option<WhyLost>
        ensures { result ≡ self.now.why }
    {
        self.why
    }
}

/// The file at this path, which is made where there is none, and then is locked and read from the disk.
fn found<H: HostFiles>(
    host: &mut H,
    streams: &HeldStreams<H::Held>,
    path: &str,
    folder: FolderSync,
) -> Result<H::File, WhyLost>
    ensures had { H.tells → IfOk result (λ file. IsHad H.File.state H.File.hold path.now folder file (H.state host.old)
        (H.state host.new)) }
    ensures seeks { H.tells → Seeks path.now folder (lost_in result) (H.state host.old) (H.state host.new) }
{
    match host.open(streams, path) {
        Ok(opened) => match folder {
            FolderSync::Always => named(host, streams, path, opened),
            FolderSync::WhereMade => lent(host, opened),
        },
        Err(fault) if fault.kind() == ErrorKind::NotFound => made(host, streams, path),
        Err(fault) => Err(why_of(fault)),
    }
}

/// An empty file that is made at this path.
fn made<H: HostFiles>(
    host: &mut H,
    streams: &HeldStreams<H::Held>,
    path: &str,
) -> Result<H::File, WhyLost>
    ensures file { H.tells → IfOk result (λ file. IsLent H.File.state H.File.hold new_file file) }
    ensures name { H.tells → OnOk result ((H.state host.new).named path.now ≡ true) }
    ensures makes { H.tells → MakesAtAll path.now (lost_in result) (H.state host.old) (H.state host.new) }
{
    match host.create_new(streams, path) {
        Ok(opened) => named(host, streams, path, opened),
        Err(fault) => Err(why_of(fault)),
    }
}

/// What was opened at this path, with its name on the disk.
fn named<H: HostFiles>(
    host: &mut H,
    streams: &HeldStreams<H::Held>,
    path: &str,
    opened: H::Opened,
) -> Result<H::File, WhyLost>
    requires { H.tells → H.hold opened ≡ free (H.standing opened).regular }
    ensures file { H.tells → IfOk result (λ file. IsLent H.File.state H.File.hold (H.standing opened) file) }
    ensures name { H.tells → OnOk result ((H.state host.new).named path.now ≡ true) }
    ensures goes { H.tells → Goes to_name (lost_in result) (H.state host.old).calls (H.state host.new) }
    ensures stands { H.tells → (H.state host.new).at ≡ (H.state host.old).at }
{
    match host.sync_folder(streams, path) {
        Ok(()) => lent(host, opened),
        Err(fault) => Err(why_of(fault)),
    }
}

/// What was opened, locked, and to be read from the disk.
fn lent<H: HostFiles>(host: &mut H, opened: H::Opened) -> Result<H::File, WhyLost>
    requires { H.tells → H.hold opened ≡ free (H.standing opened).regular }
    ensures file { H.tells → IfOk result (λ file. IsLent H.File.state H.File.hold (H.standing opened) file) }
    ensures goes { H.tells → Goes to_lend (lost_in result) (H.state host.old).calls (H.state host.new) }
    ensures stands { H.tells → (H.state host.new).at ≡ (H.state host.old).at }
    ensures names { H.tells → (H.state host.new).named ≡ (H.state host.old).named }
{
    let mut opened = opened;
    match host.is_regular(&mut opened) {
        Ok(true) => {}
        Ok(false) => return Err(WhyLost::NotAFile),
        Err(fault) => return Err(why_of(fault)),
    }
    if let Err(fault) = host.try_lock(&mut opened) {
        return Err(why_of(fault));
    }
    if let Err(fault) = host.forget_pages(&mut opened) {
        return Err(why_of(fault));
    }
    Ok(host.lend(opened))
}

/// Why a file couldn't be had, or a disk call on it failed, by the fault of the call that did.
fn why_of(fault: io::Error) -> WhyLost
    ensures { result ≡ why_by (error_kind fault) }
{
    match fault.kind() {
        ErrorKind::WouldBlock => WhyLost::Locked,
        ErrorKind::NotFound | ErrorKind::NotADirectory => WhyLost::NoFolder,
        ErrorKind::PermissionDenied => WhyLost::NotPermitted,
        ErrorKind::ReadOnlyFilesystem => WhyLost::ReadOnly,
        ErrorKind::IsADirectory => WhyLost::NotAFile,
        ErrorKind::AlreadyExists => WhyLost::DanglingLink,
        ErrorKind::FilesystemLoop => WhyLost::LinkLoop,
        ErrorKind::InvalidFilename => WhyLost::NameTooLong,
        ErrorKind::StorageFull => WhyLost::NoSpace,
        ErrorKind::QuotaExceeded => WhyLost::Quota,
        ErrorKind::FileTooLarge => WhyLost::TooLarge,
        ErrorKind::StaleNetworkFileHandle => WhyLost::Removed,
        ErrorKind::AddrNotAvailable => WhyLost::Moved,
        ErrorKind::AddrInUse => WhyLost::Replaced,
        ErrorKind::UnexpectedEof => WhyLost::Shortened,
        ErrorKind::OutOfMemory => WhyLost::Memory,
        _ => WhyLost::Other,
    }
}

impl<F: HostFile, J: Jobs<F>> Site for RealSite<F, J> {
    ghost use Rattle.outside_edges.specs.Site.{counts_of, state_in};

    ghost tells = { F.tells };

    ghost state = { λ site. state_in F.state site.file };

    ghost counts = { counts_of };

    fn length(&mut self) -> Result<u64, DiskFailed>
        ensures lost { self.old.file ≡ None → IsErr result }
        ensures why { IsWhyBehind result self.old.file self.old.why self.new.why }
        ensures one { F.tells → OneCall F.calls self.old.file self.new.file }
        ensures length { F.tells → IfOk result (λ n. n ≡ length (state_in F.state self.old.file).image) }
        ensures told { F.tells → Reads (state_in F.state self.old.file) (state_in F.state self.new.file) }
        ensures cause { DiskCause (counts_of self.old) (counts_of self.new) result }
        ensures jobs { self.new.jobs ≡ self.old.jobs }
    {
        length_of(&mut self.file, &mut self.faults, &mut self.why)
    }

    fn read_at(&mut self, at: u64, into: &mut [u8]) -> Result<(), DiskFailed>
        requires { F.tells → at + length into.old ≤ length (state_in F.state self.old.file).image }
        ensures lost { self.old.file ≡ None → IsErr result }
        ensures why { IsWhyBehind result self.old.file self.old.why self.new.why }
        ensures one { F.tells → OneCall F.calls self.old.file self.new.file }
        ensures bytes { F.tells → OnOk result (into.new ≡ take (length into.old)
            (drop at (state_in F.state self.old.file).image)) }
        ensures told { F.tells → Reads (state_in F.state self.old.file) (state_in F.state self.new.file) }
        ensures cause { DiskCause (counts_of self.old) (counts_of self.new) result }
        ensures noted { OnOk result (J.manager self.new.jobs
            ≡ manager_by (number_in at into.new) (J.manager self.old.jobs)) }
        ensures unnoted { OnErr result (self.new.jobs ≡ self.old.jobs) }
        ensures unasked { J.calls self.new.jobs ≡ J.calls self.old.jobs }
    {
        match read_from(&mut self.file, at, into, &mut self.faults, &mut self.why) {
            Ok(()) => {
                if let Some(manager) = number_in(at, into) {
                    self.jobs.of_manager(manager);
                }
                Ok(())
            }
            Err(DiskFailed) => Err(DiskFailed),
        }
    }

    fn write_at(&mut self, at: u64, bytes: &[u8]) -> Result<(), DiskFailed>
        requires { F.tells → at ≤ length (state_in F.state self.old.file).image }
        ensures lost { self.old.file ≡ None → IsErr result }
        ensures why { IsWhyBehind result self.old.file self.old.why self.new.why }
        ensures one { F.tells → OneCall F.calls self.old.file self.new.file }
        ensures told { F.tells → Writes at bytes.now result (state_in F.state self.old.file)
            (state_in F.state self.new.file) }
        ensures cause { DiskCause (asked Ask.write (counts_of self.old)) (counts_of self.new) result }
        ensures jobs { self.new.jobs ≡ self.old.jobs }
    {
        count_call(&mut self.writes);
        write_to(&mut self.file, at, bytes, &mut self.faults, &mut self.why)
    }

    fn cut(&mut self, to: u64) -> Result<(), DiskFailed>
        requires { F.tells → to ≤ length (state_in F.state self.old.file).image }
        ensures lost { self.old.file ≡ None → IsErr result }
        ensures why { IsWhyBehind result self.old.file self.old.why self.new.why }
        ensures one { F.tells → OneCall F.calls self.old.file self.new.file }
        ensures told { F.tells → Cuts to result (state_in F.state self.old.file) (state_in F.state self.new.file) }
        ensures cause { DiskCause (asked Ask.cut (counts_of self.old)) (counts_of self.new) result }
        ensures jobs { self.new.jobs ≡ self.old.jobs }
    {
        count_call(&mut self.cuts);
        cut_to(&mut self.file, to, &mut self.faults, &mut self.why)
    }

    fn sync(&mut self) -> Result<(), DiskFailed>
        ensures lost { self.old.file ≡ None → IsErr result }
        ensures why { IsWhyBehind result self.old.file self.old.why self.new.why }
        ensures one { F.tells → OneCall F.calls self.old.file self.new.file }
        ensures told { F.tells → Syncs result (state_in F.state self.old.file) (state_in F.state self.new.file) }
        ensures cause { DiskCause (asked Ask.sync (counts_of self.old)) (counts_of self.new) result }
        ensures jobs { self.new.jobs ≡ self.old.jobs }
    {
        count_call(&mut self.syncs);
        sync_of(&mut self.file, &mut self.faults, &mut self.why)
    }

    fn begin(&mut self, tag: &Tag, act: &Act) -> BeginAnswer
        ensures told { F.tells → Begins tag.now act.now result (state_in F.state self.old.file)
            (state_in F.state self.new.file) }
        ensures cause { counts_of self.new ≡ begin_counts result (counts_of self.old) }
        ensures asks { J.calls self.new.jobs ≡ JobCall.beginning tag.now act.now result ∷ J.calls self.old.jobs }
        ensures manager { J.manager self.new.jobs ≡ J.manager self.old.jobs }
        ensures file { self.new.file ≡ self.old.file }
    {
        match self.jobs.begin(tag, act) {
            BeginAnswer::Begun => BeginAnswer::Begun,
            BeginAnswer::Refused(code) => {
                count_call(&mut self.refusals);
                BeginAnswer::Refused(code)
            }
            BeginAnswer::Failed => {
                count_fault(&mut self.vim_faults);
                BeginAnswer::Failed
            }
        }
    }

    fn look(&mut self, tag: &Tag) -> LookAnswer
        ensures told { F.tells → Looks tag.now result (state_in F.state self.old.file)
            (state_in F.state self.new.file) }
        ensures cause { counts_of self.new ≡ look_counts result (counts_of self.old) }
        ensures asks { J.calls self.new.jobs ≡ JobCall.looking tag.now result ∷ J.calls self.old.jobs }
        ensures manager { J.manager self.new.jobs ≡ J.manager self.old.jobs }
        ensures file { self.new.file ≡ self.old.file }
    {
        match self.jobs.look(tag) {
            LookAnswer::Failed => {
                count_fault(&mut self.vim_faults);
                count_fault(&mut self.look_faults);
                LookAnswer::Failed
            }
            answer => answer,
        }
    }

    fn abort(&mut self, tag: &Tag) -> AbortAnswer
        ensures told { F.tells → Aborts tag.now result (state_in F.state self.old.file)
            (state_in F.state self.new.file) }
        ensures cause { counts_of self.new ≡ abort_counts result (counts_of self.old) }
        ensures asks { J.calls self.new.jobs ≡ JobCall.aborting tag.now result ∷ J.calls self.old.jobs }
        ensures manager { J.manager self.new.jobs ≡ J.manager self.old.jobs }
        ensures file { self.new.file ≡ self.old.file }
    {
        match self.jobs.abort(tag) {
            AbortAnswer::Asked => AbortAnswer::Asked,
            AbortAnswer::Failed => {
                count_fault(&mut self.vim_faults);
                AbortAnswer::Failed
            }
        }
    }
}

/// The manager's number, where these bytes of a journal's file, from this place on, hold all of it.
fn number_in(at: u64, bytes: &[u8]) -> Option<u32>
    ensures { result ≡ number_in at bytes.now }
{
    let from = usize::try_from(MANAGER_AT.checked_sub(at)?).ok()?;
    match bytes.get(from..)? {
        [a, b, c, d, ..] => Some(u32::from_be_bytes([*a, *b, *c, *d])),
        _ => None,
    }
}

/// A disk call that failed by this fault is counted, and its cause is kept.
fn fail_by<T>(
    fault: io::Error,
    faults: &mut u64,
    why: &mut Option<WhyLost>,
) -> Result<T, DiskFailed>
    ensures fails { IsErr result }
    ensures counted { faults.new ≡ one_more faults.old }
    ensures why { why.new ≡ Some (why_by (error_kind fault)) }
{
    *why = Some(why_of(fault));
    fail(faults)
}

/// A disk call that failed is counted.
fn fail<T>(faults: &mut u64) -> Result<T, DiskFailed>
    ensures fails { IsErr result }
    ensures counted { faults.new ≡ one_more faults.old }
{
    count_fault(faults);
    Err(DiskFailed)
}

fn length_of<F: HostFile>(
    file: &mut Option<F>,
    faults: &mut u64,
    why: &mut Option<WhyLost>,
) -> Result<u64, DiskFailed>
    ensures lost { file.old ≡ None → IsErr result }
    ensures counted { CountsOne result faults.old faults.new }
    ensures why { IsWhyBehind result file.old why.old why.new }
    ensures one { F.tells → OneCall F.calls file.old file.new }
    ensures length { F.tells → IfOk result (λ n. n ≡ length (state_in F.state file.old).image) }
    ensures told { F.tells → Reads (state_in F.state file.old) (state_in F.state file.new) }
{
    match file {
        Some(file) => match file.length() {
            Ok(length) => Ok(length),
            Err(fault) => fail_by(fault, faults, why),
        },
        None => fail(faults),
    }
}

fn read_from<F: HostFile>(
    file: &mut Option<F>,
    at: u64,
    into: &mut [u8],
    faults: &mut u64,
    why: &mut Option<WhyLost>,
) -> Result<(), DiskFailed>
    requires { F.tells → at + length into.old ≤ length (state_in F.state file.old).image }
    ensures lost { file.old ≡ None → IsErr result }
    ensures counted { CountsOne result faults.old faults.new }
    ensures why { IsWhyBehind result file.old why.old why.new }
    ensures one { F.tells → OneCall F.calls file.old file.new }
    ensures bytes { F.tells → OnOk result (into.new ≡ take (length into.old)
        (drop at (state_in F.state file.old).image)) }
    ensures told { F.tells → Reads (state_in F.state file.old) (state_in F.state file.new) }
{
    match file {
        Some(file) => match file.read_exact_at(into, at) {
            Ok(()) => Ok(()),
            Err(fault) => fail_by(fault, faults, why),
        },
        None => fail(faults),
    }
}

fn write_to<F: HostFile>(
    file: &mut Option<F>,
    at: u64,
    bytes: &[u8],
    faults: &mut u64,
    why: &mut Option<WhyLost>,
) -> Result<(), DiskFailed>
    requires { F.tells → at ≤ length (state_in F.state file.old).image }
    ensures lost { file.old ≡ None → IsErr result }
    ensures counted { CountsOne result faults.old faults.new }
    ensures why { IsWhyBehind result file.old why.old why.new }
    ensures one { F.tells → OneCall F.calls file.old file.new }
    ensures told { F.tells → Writes at bytes.now result (state_in F.state file.old) (state_in F.state file.new) }
{
    match file {
        Some(file) => match file.write_all_at(bytes, at) {
            Ok(()) => Ok(()),
            Err(fault) => fail_by(fault, faults, why),
        },
        None => fail(faults),
    }
}

fn cut_to<F: HostFile>(
    file: &mut Option<F>,
    to: u64,
    faults: &mut u64,
    why: &mut Option<WhyLost>,
) -> Result<(), DiskFailed>
    requires { F.tells → to ≤ length (state_in F.state file.old).image }
    ensures lost { file.old ≡ None → IsErr result }
    ensures counted { CountsOne result faults.old faults.new }
    ensures why { IsWhyBehind result file.old why.old why.new }
    ensures one { F.tells → OneCall F.calls file.old file.new }
    ensures told { F.tells → Cuts to result (state_in F.state file.old) (state_in F.state file.new) }
{
    match file {
        Some(file) => match file.set_len(to) {
            Ok(()) => Ok(()),
            Err(fault) => fail_by(fault, faults, why),
        },
        None => fail(faults),
    }
}

fn sync_of<F: HostFile>(
    file: &mut Option<F>,
    faults: &mut u64,
    why: &mut Option<WhyLost>,
) -> Result<(), DiskFailed>
    ensures lost { file.old ≡ None → IsErr result }
    ensures counted { CountsOne result faults.old faults.new }
    ensures why { IsWhyBehind result file.old why.old why.new }
    ensures one { F.tells → OneCall F.calls file.old file.new }
    ensures told { F.tells → Syncs result (state_in F.state file.old) (state_in F.state file.new) }
{
    match file {
        Some(file) => match file.sync_data() {
            Ok(()) => Ok(()),
            Err(fault) => fail_by(fault, faults, why),
        },
        None => fail(faults),
    }
}
