//! A file in memory, and a folder in which one stands or none.
ghost use Rattle.std.specs.Prelude.{◌≡◌, IfErr, IfOk, IsErr, Some, false, true};
ghost use Rattle.std.specs.IoError.{error_kind};
ghost use Rattle.std.specs.Str.{bytes_eq};
ghost use Rattle.site_traits.specs.Counts.{one_more};
ghost use Rattle.site_traits.specs.MemSite.{state_of};

use crate::files::{HostFile, HostFiles};
use site_traits::{DiskFailed, MemSite, Site, SitePlan};
use standard_streams::HeldStreams;
use std::alloc::{AllocError, Global};
use std::io;
use std::io::ErrorKind;

/// A file over a site in memory.
#[derive(Drop)]
pub struct MemFile {
    site: MemSite,
    locked: bool,
    from_disk: bool,
    calls: u64,
}

impl HostFile for MemFile {
    ghost use Rattle.site_traits.specs.MemSite.{state_of};

    ghost tells = { Unit {0} };

    ghost state = { λ f. state_of f.site };

    ghost hold = { λ f. record { regular = true; locked = f.locked; from_disk = f.from_disk } };

    ghost calls = { λ f. f.calls };

    fn length(&mut self) -> io::Result<u64> {
        count_call(&mut self.calls);
        match self.site.length() {
            Ok(length) => Ok(length),
            Err(DiskFailed) => Err(io::Error::from(ErrorKind::Other)),
        }
    }

    fn read_exact_at(&mut self, into: &mut [u8], at: u64) -> io::Result<()> {
        count_call(&mut self.calls);
        match self.site.read_at(at, into) {
            Ok(()) => Ok(()),
            Err(DiskFailed) => Err(io::Error::from(ErrorKind::UnexpectedEof)),
        }
    }

    fn write_all_at(&mut self, bytes: &[u8], at: u64) -> io::Result<()> {
        count_call(&mut self.calls);
        match self.site.write_at(at, bytes) {
            Ok(()) => Ok(()),
            Err(DiskFailed) => Err(io::Error::from(ErrorKind::StorageFull)),
        }
    }

    fn set_len(&mut self, to: u64) -> io::Result<()> {
        count_call(&mut self.calls);
        match self.site.cut(to) {
            Ok(()) => Ok(()),
            Err(DiskFailed) => Err(io::Error::from(ErrorKind::Other)),
        }
    }

    fn sync_data(&mut self) -> io::Result<()> {
        count_call(&mut self.calls);
        match self.site.sync() {
            Ok(()) => Ok(()),
            Err(DiskFailed) => Err(io::Error::from(ErrorKind::Other)),
        }
    }
}

/// One call more. A count stays at its greatest value.
fn count_call(calls: &mut u64)
    ensures { calls.new ≡ one_more calls.old }
{
    *calls = calls.saturating_add(1);
}

/// An open file with this content and room for 64 bytes.
fn mem_file(alloc: Global, content: &[u8]) -> Result<MemFile, AllocError>
    ensures image { IfOk result (λ f. (state_of f.site).image ≡ content.now) }
    ensures free { IfOk result (λ f. (f.locked ≡ false) × (f.from_disk ≡ false)) }
{
    let plan = SitePlan {
        bytes: 64,
        jobs: 0,
        failing: Vec::new(alloc),
        work: Vec::new(alloc),
    };
    Ok(MemFile {
        site: MemSite::with_file(alloc, plan, content)?,
        locked: false,
        from_disk: false,
        calls: 0,
    })
}

/// How often each call was made on a folder.
#[derive(Drop)]
struct Counts {
    opens: u64,
    makes: u64,
    folder_syncs: u64,
    kinds: u64,
    locks: u64,
    drops: u64,
    lends: u64,
}

/// A folder in which a file stands at one path or none does, and nothing at others.
#[derive(Drop)]
pub struct Folder {
    alloc: Global,
    path: Vec<u8>,
    stands: bool,
    content: Vec<u8>,
    synced: bool,
    calls: Counts,
    fault: Option<ErrorKind>,
}

impl Folder {
    /// A folder with this file at this path or with none, whose names aren't on the disk yet.
    pub fn of(alloc: Global, path: &str, content: Option<&[u8]>) -> Result<Folder, AllocError> {
        Ok(Folder {
            alloc,
            path: Vec::from_slice(alloc, path.as_bytes())?,
            stands: content.is_some(),
            content: Vec::from_slice(alloc, content.unwrap_or(b""))?,
            synced: false,
            calls: Counts {
                opens: 0,
                makes: 0,
                folder_syncs: 0,
                kinds: 0,
                locks: 0,
                drops: 0,
                lends: 0,
            },
            fault: None,
        })
    }

    /// A fault of this kind, which is noted.
    fn fail<T>(&mut self, kind: ErrorKind) -> io::Result<T>
        ensures fails { IfErr result (λ e. error_kind e ≡ kind) }
        ensures err { IsErr result }
        ensures noted { self.new ≡ record self.old { fault = Some kind } }
    {
        self.fault = Some(kind);
        Err(io::Error::from(kind))
    }
}

/// Whether this is the path.
fn is_path(path: &[u8], asked: &str) -> bool
    ensures { result ≡ bytes_eq asked.now path.now }
{
    asked.as_bytes() == path
}

impl HostFiles for Folder {
    ghost use Rattle.host_calls.specs.Folder.{folder_state, standing_with};
    ghost use Rattle.host_calls.specs.Files.{new_file};

    type Opened = MemFile;

    type File = MemFile;

    type Held = u64;

    ghost tells = { Unit {0} };

    ghost state = { λ f. folder_state f.path.items (standing_with f.stands f.content.items) f.synced
        (record {
          opens = f.calls.opens;
          makes = f.calls.makes;
          folder_syncs = f.calls.folder_syncs;
          kinds =
              f.calls.kinds;
          locks = f.calls.locks;
          drops = f.calls.drops;
          lends = f.calls.lends;
        }) f.fault };

    ghost standing = { λ f. record new_file { content = (state_of f.site).image } };

    ghost hold = { λ f. record { regular = true; locked = f.locked; from_disk = f.from_disk } };

    fn open(&mut self, _streams: &HeldStreams<u64>, path: &str) -> io::Result<MemFile> {
        count_call(&mut self.calls.opens);
        if !self.stands || !is_path(&self.path, path) {
            return self.fail(ErrorKind::NotFound);
        }
        match mem_file(self.alloc, &self.content) {
            Ok(file) => {
                self.fault = None;
                Ok(file)
            }
            Err(AllocError) => self.fail(ErrorKind::OutOfMemory),
        }
    }

    fn create_new(&mut self, _streams: &HeldStreams<u64>, path: &str) -> io::Result<MemFile> {
        count_call(&mut self.calls.makes);
        if !is_path(&self.path, path) {
            return self.fail(ErrorKind::PermissionDenied);
        }
        if self.stands {
            return self.fail(ErrorKind::AlreadyExists);
        }
        match mem_file(self.alloc, &[]) {
            Ok(file) => {
                self.stands = true;
                self.content.clear();
                self.fault = None;
                Ok(file)
            }
            Err(AllocError) => self.fail(ErrorKind::OutOfMemory),
        }
    }

    fn sync_folder(&mut self, _streams: &HeldStreams<u64>, _path: &str) -> io::Result<()> {
        count_call(&mut self.calls.folder_syncs);
        self.synced = true;
        self.fault = None;
        Ok(())
    }

    fn is_regular(&mut self, _opened: &mut MemFile) -> io::Result<bool> {
        count_call(&mut self.calls.kinds);
        self.fault = None;
        Ok(true)
    }

    fn try_lock(&mut self, opened: &mut MemFile) -> io::Result<()> {
        count_call(&mut self.calls.locks);
        opened.locked = true;
        opened.from_disk = false;
        self.fault = None;
        Ok(())
    }

    fn forget_pages(&mut self, opened: &mut MemFile) -> io::Result<()> {
        count_call(&mut self.calls.drops);
        opened.from_disk = true;
        self.fault = None;
        Ok(())
    }

    fn lend(&mut self, opened: MemFile) -> MemFile {
        count_call(&mut self.calls.lends);
        self.fault = None;
        opened
    }
}
