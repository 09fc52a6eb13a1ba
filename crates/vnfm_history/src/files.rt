//! The machine's files, opened for reading alone: nothing is made, and nothing is written.
use host_calls::{HostFile, HostFiles};
use standard_streams::HeldStreams;
use std::fs::{File, OpenOptions};
use std::io;
use std::io::ErrorKind;
use std::rt::Files;

/// A file that is read and not written: whatever would change it is refused, and isn't asked of the file.
#[derive(Drop)]
pub struct ReadFile {
    file: File,
}

impl HostFile for ReadFile {
    ghost use Rattle.host_calls.specs.Files.{whole};
    ghost use Rattle.site_traits.specs.Site.{untold};

    ghost tells = { ⊥ };

    ghost state = { λ _. untold };

    ghost hold = { λ _. whole };

    ghost calls = { λ _. 0 };

    fn length(&mut self) -> io::Result<u64> {
        HostFile::length(&mut self.file)
    }

    fn read_exact_at(&mut self, into: &mut [u8], at: u64) -> io::Result<()> {
        HostFile::read_exact_at(&mut self.file, into, at)
    }

    fn write_all_at(&mut self, _bytes: &[u8], _at: u64) -> io::Result<()> {
        Err(io::Error::from(ErrorKind::PermissionDenied))
    }

    fn set_len(&mut self, _to: u64) -> io::Result<()> {
        Err(io::Error::from(ErrorKind::PermissionDenied))
    }

    fn sync_data(&mut self) -> io::Result<()> {
        HostFile::sync_data(&mut self.file)
    }
}

/// The machine's files, of which those that are there are opened for reading. Their locks are shared: several may read
/// one file at once, and none while a manager has it.
#[derive(Drop)]
pub struct ReadFiles<'a, R: Files<File = File>> {
    rt: &'a R,
}

impl<'a, R: Files<File = File>> ReadFiles<'a, R> {
    /// The files of this runtime.
    pub fn of(rt: &'a R) -> ReadFiles<'a, R> {
        ReadFiles { rt }
    }
}

impl<'a, R: Files<File = File>> HostFiles for ReadFiles<'a, R> {
    ghost use Rattle.host_calls.specs.Files.{new_file, nothing, whole};

    type Opened = File;

    type File = ReadFile;

    type Held = File;

    ghost tells = { ⊥ };

    ghost state = { λ _. nothing };

    ghost standing = { λ _. new_file };

    ghost hold = { λ _. whole };

    fn open(&mut self, _streams: &HeldStreams<File>, path: &str) -> io::Result<File> {
        OpenOptions::new().read(true).open(self.rt, path)
    }

    fn create_new(&mut self, _streams: &HeldStreams<File>, _path: &str) -> io::Result<File> {
        Err(io::Error::from(ErrorKind::NotFound))
    }

    fn sync_folder(&mut self, _streams: &HeldStreams<File>, _path: &str) -> io::Result<()> {
        Ok(())
    }

    fn is_regular(&mut self, opened: &mut File) -> io::Result<bool> {
        Ok(opened.metadata()?.is_file())
    }

    fn try_lock(&mut self, opened: &mut File) -> io::Result<()> {
        Ok(File::try_lock_shared(opened)?)
    }

    fn forget_pages(&mut self, _opened: &mut File) -> io::Result<()> {
        Ok(())
    }

    fn lend(&mut self, opened: File) -> ReadFile {
        ReadFile { file: opened }
    }
}
