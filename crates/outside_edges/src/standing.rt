//! Whether a file that is open may still be written: it may where it is the file that stands at its path.
ghost use Rattle.std.specs.Prelude.{IfErr, OnOk};
ghost use Rattle.std.specs.IoError.{error_kind};
ghost use Rattle.outside_edges.specs.Site.{why_by};
ghost use Rattle.outside_edges.specs.Standing.{IsAstray, MayBeWritten};

use std::io;
use std::io::ErrorKind;

/// Which file it is.
#[derive(Clone, Copy, PartialEq, Eq, Debug)]
pub struct FileNumber {
    /// The number of its device.
    pub device: u64,
    /// Its own there.
    pub inode: u64,
}

/// What the system says of a file that is open.
#[derive(Clone, Copy, Debug)]
pub struct OpenFile {
    /// Which it is.
    pub number: FileNumber,
    /// How many names it has.
    pub links: u64,
    /// Its length in bytes.
    pub length: u64,
}

/// Says whether this file may be written from this place on, by what stands at its path.
///
/// Failures, of a kind that stands for the word of a file that was removed, moved, replaced or made shorter: where it
/// may not. That of a file that is shorter is the kind of a read past its end.
/// Source: own rule.
pub fn may_be_written(file: OpenFile, there: Option<FileNumber>, at: u64) -> io::Result<()>
    ensures may { OnOk result (MayBeWritten file there at) }
    ensures astray { IfErr result (λ fault. IsAstray file there at (why_by (error_kind fault))) }
{
    match there {
        Some(number) if number != file.number => Err(io::Error::from(ErrorKind::AddrInUse)),
        _ if file.links == 0 => Err(io::Error::from(ErrorKind::StaleNetworkFileHandle)),
        None => Err(io::Error::from(ErrorKind::AddrNotAvailable)),
        _ if file.length < at => Err(io::Error::from(ErrorKind::UnexpectedEof)),
        _ => Ok(()),
    }
}
