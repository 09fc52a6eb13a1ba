//! The machine's files, of which a door's pulse is told when one is written. A file is written only where it is the one
//! that stands at the path that it was opened at.
use crate::paces::note_write;
use edge_limits::{Pace, Pulse};
use host_calls::{HostFile, HostFiles, StdFiles};
use outside_edges::{FileNumber, OpenFile, may_be_written};
use standard_streams::HeldStreams;
use std::alloc::Global;
use std::cell::Cell;
use std::fs::{File, Metadata};
use std::io::ErrorKind;
use std::os::unix::fs::MetadataExt;
use std::rt::Files;
use std::{fs, io};

/// A file that was opened, and the path that it was opened at.
#[derive(Drop)]
pub struct NamedFile {
    file: File,
    path: String,
}

/// A file, of which a pulse is told when it is written: so a door knows that something was recorded, and that there may
/// be something to do at once.
///
/// Each write asks the system of the file and of its path before, by a call each, and fails where `may_be_written` says
/// no: what would be written to a file that was removed, moved, replaced or made shorter isn't where it is looked for.
#[derive(Drop)]
pub struct NotedFile<'a, R: Files<File = File>> {
    rt: &'a R,
    named: NamedFile,
    pulse: &'a Cell<Pulse>,
    pace: &'a Cell<Pace>,
}

/// Which file the system tells of.
fn number_of(told: &Metadata) -> FileNumber {
    FileNumber {
        device: told.dev(),
        inode: told.ino(),
    }
}

/// Which file stands at this path; none where nothing does.
fn standing_at<R: Files<File = File>>(rt: &R, path: &str) -> io::Result<Option<FileNumber>> {
    match fs::metadata(rt, path) {
        Ok(told) => Ok(Some(number_of(&told))),
        Err(fault) => match fault.kind() {
            ErrorKind::NotFound | ErrorKind::NotADirectory | ErrorKind::FilesystemLoop => Ok(None),
            _ => Err(fault),
        },
    }
}

/// Says whether this file may be written from this place on.
fn look_at<R: Files<File = File>>(rt: &R, named: &NamedFile, at: u64) -> io::Result<()> {
    // The path is asked first: of a file that is removed in between it is then said that it has no name.
    let there = standing_at(rt, named.path.as_str())?;
    let told = named.file.metadata()?;
    let file = OpenFile {
        number: number_of(&told),
        links: told.nlink(),
        length: told.len(),
    };
    may_be_written(file, there, at)
}

impl<'a, R: Files<File = File>> HostFile for NotedFile<'a, R> {
    ghost use Rattle.host_calls.specs.Files.{whole};
    ghost use Rattle.site_traits.specs.Site.{untold};

    ghost tells = { ⊥ };

    ghost state = { λ _. untold };

    ghost hold = { λ _. whole };

    ghost calls = { λ _. 0 };

    fn length(&mut self) -> io::Result<u64> {
        HostFile::length(&mut self.named.file)
    }

    fn read_exact_at(&mut self, into: &mut [u8], at: u64) -> io::Result<()> {
        HostFile::read_exact_at(&mut self.named.file, into, at)
    }

    fn write_all_at(&mut self, bytes: &[u8], at: u64) -> io::Result<()> {
        let mut noted = self.pulse.get();
        noted.acted = true;
        self.pulse.set(noted);
        note_write(self.pace);
        look_at(self.rt, &self.named, at)?;
        HostFile::write_all_at(&mut self.named.file, bytes, at)
    }

    fn set_len(&mut self, to: u64) -> io::Result<()> {
        HostFile::set_len(&mut self.named.file, to)
    }

    fn sync_data(&mut self) -> io::Result<()> {
        HostFile::sync_data(&mut self.named.file)
    }
}

/// The machine's files, of which a pulse is told when one is written.
#[derive(Drop)]
pub struct NotedFiles<'a, R: Files<File = File>> {
    alloc: Global,
    rt: &'a R,
    files: StdFiles<'a, R>,
    pulse: &'a Cell<Pulse>,
    pace: &'a Cell<Pace>,
}

impl<'a, R: Files<File = File>> NotedFiles<'a, R> {
    /// The files of this runtime, and the pulse and the pace that are told.
    pub fn of(
        alloc: Global,
        rt: &'a R,
        pulse: &'a Cell<Pulse>,
        pace: &'a Cell<Pace>,
    ) -> NotedFiles<'a, R> {
        NotedFiles {
            alloc,
            rt,
            files: StdFiles::of(rt),
            pulse,
            pace,
        }
    }
}

/// This file, opened at this path. Where there is no memory for the path it is closed.
fn named(alloc: Global, file: File, path: &str) -> io::Result<NamedFile> {
    match String::from_str(alloc, path) {
        Ok(path) => Ok(NamedFile { file, path }),
        Err(_) => Err(io::Error::from(ErrorKind::OutOfMemory)),
    }
}

impl<'a, R: Files<File = File>> HostFiles for NotedFiles<'a, R> {
    ghost use Rattle.host_calls.specs.Files.{new_file, nothing, whole};

    type Opened = NamedFile;

    type File = NotedFile<'a, R>;

    type Held = File;

    ghost tells = { ⊥ };

    ghost state = { λ _. nothing };

    ghost standing = { λ _. new_file };

    ghost hold = { λ _. whole };

    fn open(&mut self, streams: &HeldStreams<File>, path: &str) -> io::Result<NamedFile> {
        let file = self.files.open(streams, path)?;
        named(self.alloc, file, path)
    }

    fn create_new(&mut self, streams: &HeldStreams<File>, path: &str) -> io::Result<NamedFile> {
        let file = self.files.create_new(streams, path)?;
        named(self.alloc, file, path)
    }

    fn sync_folder(&mut self, streams: &HeldStreams<File>, path: &str) -> io::Result<()> {
        self.files.sync_folder(streams, path)
    }

    fn is_regular(&mut self, opened: &mut NamedFile) -> io::Result<bool> {
        self.files.is_regular(&mut opened.file)
    }

    fn try_lock(&mut self, opened: &mut NamedFile) -> io::Result<()> {
        self.files.try_lock(&mut opened.file)
    }

    fn forget_pages(&mut self, opened: &mut NamedFile) -> io::Result<()> {
        self.files.forget_pages(&mut opened.file)
    }

    fn lend(&mut self, opened: NamedFile) -> NotedFile<'a, R> {
        NotedFile {
            rt: self.rt,
            named: opened,
            pulse: self.pulse,
            pace: self.pace,
        }
    }
}
