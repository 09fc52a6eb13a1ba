//! What opens the null device, and which numbers of open files are taken.
ghost use Rattle.standard_streams.specs.Numbers.{Numbers, Opens};

use std::fs::{File, Files};
use std::io;

/// Opens the null device for reading alone, so that a read of it is an end and a write to it fails.
///
/// Source: own rule; that the lowest free number is taken is POSIX.1-2017, 2.14.
pub trait NullDevice {
    /// What holds a number until it is dropped.
    type Held;

    /// Whether devices of this kind tell which numbers are taken. Clauses on these hold where they do.
    ghost tells: { Type 0 };

    /// Which numbers are taken, how often it was opened, and how many openings have failed.
    ghost numbers: { Self → Numbers };

    /// Opens it once more.
    fn open(&mut self) -> io::Result<Self::Held>
        ensures told { tells → Opens result (numbers self.old) (numbers self.new) };
}

/// The null device of a file system.
#[derive(Drop)]
pub struct NullFiles<'a, R: Files> {
    files: &'a R,
}

impl<'a, R: Files> NullFiles<'a, R> {
    /// The null device of this file system.
    pub fn of(files: &'a R) -> NullFiles<'a, R> {
        NullFiles { files }
    }
}

impl<'a, R: Files> NullDevice for NullFiles<'a, R> {
    type Held = R::File;

    ghost tells = { ⊥ };

    ghost numbers = { λ _. record { taken = λ _. ⊥; opened = 0; failed = 0 } };

    fn open(&mut self) -> io::Result<R::File> {
        File::open(self.files, "/dev/null")
    }
}
