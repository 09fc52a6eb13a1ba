//! Files, and where they are found.
ghost use Rattle.std.specs.Prelude.{◌≡◌, ◌≤◌, ◌+◌, ℕ, IfOk, OnOk, length, take, drop};
ghost use Rattle.std.specs.Path.{path_bytes};
ghost use Rattle.site_traits.specs.Counts.{one_more};
ghost use Rattle.site_traits.specs.Site.{SiteState, Reads, Writes, Cuts, Syncs};
ghost use Rattle.host_calls.specs.Files.{FileCall, FilesState, Finds, Forgets, Hold, Lends, Locks, Makes, Standing};
ghost use Rattle.host_calls.specs.Files.{SyncsFolder, answer_of, called, folder_in, whole, yes_or_no};

use standard_streams::HeldStreams;
use std::fs::{File, OpenOptions};
use std::io;
use std::os::fd::AsRawFd;
use std::os::unix::fs::{FileExt, OpenOptionsExt};
use std::path::Path;
use std::rt::Files;

/// Who may do what with a file that is made: its owner reads and writes it.
const OWNER_ALONE: u32 = 0o600;

/// An open file whose content is read and changed.
///
/// Source: std's `File` and `FileExt`.
pub trait HostFile {
    /// Whether files of this kind tell their content. Clauses on content hold where they do.
    ghost tells: { Type 0 };

    /// What the file tells.
    ghost state: { Self → SiteState };

    /// How it is held.
    ghost hold: { Self → Hold };

    /// How many calls were made on it. Each of those below makes one more, whether it fails or not.
    ghost calls: { Self → ℕ };

    /// Its length in bytes.
    fn length(&mut self) -> io::Result<u64>
        ensures length { tells → IfOk result (λ n. n ≡ length (state self.old).image) }
        ensures told { tells → Reads (state self.old) (state self.new) }
        ensures one { tells → calls self.new ≡ one_more (calls self.old) };

    /// Fills `into` with the bytes from `at` on.
    fn read_exact_at(&mut self, into: &mut [u8], at: u64) -> io::Result<()>
        requires { tells → at + length into.old ≤ length (state self.old).image }
        ensures bytes { tells → OnOk result (into.new ≡ take (length into.old) (drop at (state self.old).image)) }
        ensures told { tells → Reads (state self.old) (state self.new) }
        ensures one { tells → calls self.new ≡ one_more (calls self.old) };

    /// Writes these bytes from `at` on.
    fn write_all_at(&mut self, bytes: &[u8], at: u64) -> io::Result<()>
        requires { tells → at ≤ length (state self.old).image }
        ensures told { tells → Writes at bytes.now result (state self.old) (state self.new) }
        ensures one { tells → calls self.new ≡ one_more (calls self.old) };

    /// Cuts it to this length.
    fn set_len(&mut self, to: u64) -> io::Result<()>
        requires { tells → to ≤ length (state self.old).image }
        ensures told { tells → Cuts to result (state self.old) (state self.new) }
        ensures one { tells → calls self.new ≡ one_more (calls self.old) };

    /// Brings what was written to the disk.
    fn sync_data(&mut self) -> io::Result<()>
        ensures told { tells → Syncs result (state self.old) (state self.new) }
        ensures one { tells → calls self.new ≡ one_more (calls self.old) };
}

/// Where files are found. A file is had by calls on this: what was opened shows nothing of its content, and nothing
/// changes that, until it is lent; and it is lent only as a regular file that is locked and reads what the disk has. So
/// what couldn't be lent is as it was.
///
/// Whoever opens something shows that the standard streams are held by a device of this kind, so that it gets none of
/// their numbers.
///
/// Source: std's `OpenOptions` and `File`.
pub trait HostFiles {
    /// What was opened and isn't lent.
    type Opened: Drop;

    /// A file that was lent.
    type File: HostFile + Drop;

    /// What holds the number of a standard stream.
    type Held: Drop;

    /// Whether a place of this kind tells its files. Clauses on these hold where it does.
    ghost tells: { Type 0 };

    /// What it tells. Each call below is counted, and its answer is the last.
    ghost state: { Self → FilesState };

    /// What stood where something was opened.
    ghost standing: { Self.Opened → Standing };

    /// How it is held.
    ghost hold: { Self.Opened → Hold };

    /// Opens what stands at this path for reading and writing, as it is.
    fn open(&mut self, streams: &HeldStreams<Self::Held>, path: &str) -> io::Result<Self::Opened>
        ensures told { tells → Finds standing hold path.now result (state self.old) (state self.new) };

    /// Makes an empty file at this path, where nothing is, and opens it. Its owner alone may read and write it.
    fn create_new(
        &mut self,
        streams: &HeldStreams<Self::Held>,
        path: &str,
    ) -> io::Result<Self::Opened>
        ensures told { tells → Makes standing hold path.now result (state self.old) (state self.new) };

    /// Brings the name of the file at this path to the disk, by a sync of its folder.
    fn sync_folder(&mut self, streams: &HeldStreams<Self::Held>, path: &str) -> io::Result<()>
        ensures told { tells → SyncsFolder path.now result (state self.old) (state self.new) };

    /// Whether this is a regular file.
    fn is_regular(&mut self, opened: &mut Self::Opened) -> io::Result<bool>
        ensures regular { tells → IfOk result (λ b. b ≡ (standing opened.old).regular) }
        ensures same { tells → (standing opened.new ≡ standing opened.old) × (hold opened.new ≡ hold opened.old) }
        ensures told { tells → state self.new ≡ called FileCall.kind_check (yes_or_no result) (state self.old) };

    /// Locks it against every other opening of it.
    ///
    /// Refusals: `WouldBlock`, where another has the lock; other faults of the call.
    fn try_lock(&mut self, opened: &mut Self::Opened) -> io::Result<()>
        ensures hold { tells → Locks result (hold opened.old) (hold opened.new) }
        ensures same { tells → standing opened.new ≡ standing opened.old }
        ensures told { tells → state self.new ≡ called FileCall.locking (answer_of result) (state self.old) };

    /// Drops the kernel's copies of its pages. After a sync that failed they may hold what never reached the disk and
    /// be taken for clean, so that no later sync would write or report them.
    fn forget_pages(&mut self, opened: &mut Self::Opened) -> io::Result<()>
        ensures hold { tells → Forgets result (hold opened.old) (hold opened.new) }
        ensures same { tells → standing opened.new ≡ standing opened.old }
        ensures told { tells → state self.new ≡ called FileCall.page_drop (answer_of result) (state self.old) };

    /// Lends this to whoever reads and writes it.
    fn lend(&mut self, opened: Self::Opened) -> Self::File
        requires whole { tells → hold opened ≡ whole }
        ensures told { tells → Lends Self.File.state Self.File.hold (standing opened) result (state self.old)
            (state self.new) };
}

impl HostFile for File {
    ghost use Rattle.site_traits.specs.Site.{untold};
    ghost use Rattle.host_calls.specs.Files.{whole};

    ghost tells = { ⊥ };

    ghost state = { λ _. untold };

    ghost hold = { λ _. whole };

    ghost calls = { λ _. 0 };

    fn length(&mut self) -> io::Result<u64> {
        Ok(self.metadata()?.len())
    }

    fn read_exact_at(&mut self, into: &mut [u8], at: u64) -> io::Result<()> {
        FileExt::read_exact_at(self, into, at)
    }

    fn write_all_at(&mut self, bytes: &[u8], at: u64) -> io::Result<()> {
        FileExt::write_all_at(self, bytes, at)
    }

    fn set_len(&mut self, to: u64) -> io::Result<()> {
        File::set_len(self, to)
    }

    fn sync_data(&mut self) -> io::Result<()> {
        File::sync_data(self)
    }
}

/// The machine's files.
#[derive(Drop)]
pub struct StdFiles<'a, R: Files<File = File>> {
    rt: &'a R,
}

impl<'a, R: Files<File = File>> StdFiles<'a, R> {
    /// The files of this runtime.
    pub fn of(rt: &'a R) -> StdFiles<'a, R> {
        StdFiles { rt }
    }
}

impl<'a, R: Files<File = File>> HostFiles for StdFiles<'a, R> {
    ghost use Rattle.host_calls.specs.Files.{new_file, nothing, whole};

    type Opened = File;

    type File = File;

    type Held = File;

    ghost tells = { ⊥ };

    ghost state = { λ _. nothing };

    ghost standing = { λ _. new_file };

    ghost hold = { λ _. whole };

    fn open(&mut self, _streams: &HeldStreams<File>, path: &str) -> io::Result<File> {
        OpenOptions::new()
            .read(true)
            .write(true)
            .open(self.rt, path)
    }

    fn create_new(&mut self, _streams: &HeldStreams<File>, path: &str) -> io::Result<File> {
        OpenOptions::new()
            .read(true)
            .write(true)
            .create_new(true)
            .mode(OWNER_ALONE)
            .open(self.rt, path)
    }

    fn sync_folder(&mut self, _streams: &HeldStreams<File>, path: &str) -> io::Result<()> {
        File::open(self.rt, folder_of(path))?.sync_all()
    }

    fn is_regular(&mut self, opened: &mut File) -> io::Result<bool> {
        Ok(opened.metadata()?.is_file())
    }

    fn try_lock(&mut self, opened: &mut File) -> io::Result<()> {
        Ok(File::try_lock(opened)?)
    }

    fn forget_pages(&mut self, opened: &mut File) -> io::Result<()> {
        match libc::posix_fadvise(opened.as_raw_fd(), 0, 0, libc::POSIX_FADV_DONTNEED) {
            0 => Ok(()),
            fault => Err(io::Error::from_raw_os_error(fault)),
        }
    }

    fn lend(&mut self, opened: File) -> File {
        opened
    }
}

/// The folder that a path's last name is in.
fn folder_of(path: &str) -> Path<'_>
    ensures { path_bytes result ≡ folder_in path.now }
{
    match Path::new(path).parent() {
        Some(folder) if folder.to_str() != Some("") => folder,
        _ => Path::new("."),
    }
}
