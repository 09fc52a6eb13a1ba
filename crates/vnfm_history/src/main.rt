//! The program `vnfm_history`: what happened in a journal, for a person. It reads the journal's file and never writes it.
#![tactic(auto)]

mod files;
mod words;

use crate::files::ReadFiles;
use crate::words::{Asked, Request, read_words, words_of};
use executor::OpenFault;
use history_report::{ReportFault, TellFault, report};
use outside_edges::{FolderSync, NoJobs, RealSink, RealSite, WhyLost};
use standard_streams::{NullFiles, hold_streams};
use std::env;
use std::io::ErrorKind;
use std::process::ExitCode;

/// What `--help` prints.
const HELP: &str = "vnfm_history: what happened in a journal of vnfm

    vnfm_history --journal PATH [--instance ID] [--occurrence ID] [--html]

It prints a line for each event of the journal at PATH, the oldest first: the event's number, its moment, what happened
and what it is about. With --instance it tells of that VNF instance alone, and with --occurrence of that operation
occurrence; the identifiers are those that vnfm shows. With --html it prints one page for a browser instead: a line of
time for each instance and a bar for each operation, of what was chosen, or else of the last 1,000 operations.

The file is opened for reading alone, and nothing is made or written. While a manager has the journal its lock is held:
copy the file then, which is a journal at every moment, and give the copy.

    vnfm_history --journal journal --instance 00000007-766d-8001-8000-000000000001
    cp journal copy && vnfm_history --journal copy --html >night.html

    0  all was told
    2  the words are others
    3  the file can't be had, as where a manager holds its lock, or a call on it failed
    4  the journal has no such instance, or no such occurrence
    5  the file is no journal
    6  out of memory
    7  the output couldn't be written
    8  the journal has a bad record
Where the status isn't 0, a line on standard error that begins `vnfm_history: ` says why.
";

/// What `--version` prints.
const VERSION: &str = "vnfm_history 0.1.0\n";

fn main(rt: HostRuntime) -> ExitCode {
    ExitCode::from(start(&rt))
}

/// Obeys the words, and gives the program's status.
fn start(rt: &HostRuntime) -> u8 {
    let args = match env::args(rt) {
        Ok(args) => args,
        Err(fault) if fault.kind() == ErrorKind::OutOfMemory => return starved(rt),
        Err(_) => return misused(rt),
    };
    let Ok(words) = words_of(rt.alloc(), args) else {
        return starved(rt);
    };
    match read_words(&words) {
        Some(Asked::Help) => print(rt, HELP),
        Some(Asked::Version) => print(rt, VERSION),
        Some(Asked::Report(request)) => report_on(rt, request),
        None => misused(rt),
    }
}

/// Reports what is asked for, and gives the program's status. The numbers of the standard streams are held, so that the
/// journal gets none of them.
fn report_on(rt: &HostRuntime, request: Request<'_>) -> u8 {
    let Ok(wish) = request.wish(rt.alloc()) else {
        return starved(rt);
    };
    let mut device = NullFiles::of(rt);
    let Ok(streams) = hold_streams(&mut device) else {
        return say(rt, 3, "/dev/null couldn't be opened");
    };
    let mut files = ReadFiles::of(rt);
    let mut site = RealSite::made(NoJobs::made());
    let opening = site.open(&mut files, &streams, request.journal, FolderSync::WhereMade);
    if opening.is_err() {
        return starved(rt);
    }
    let mut out = RealSink::made(rt.stdout());
    match report(rt.alloc(), &mut site, &wish, &mut out) {
        Ok(()) => 0,
        Err(fault) => explain(rt, request.journal, &fault, site.why()),
    }
}

/// Says why a journal wasn't reported, and gives the program's status.
fn explain(rt: &HostRuntime, path: &str, fault: &ReportFault, why: Option<WhyLost>) -> u8 {
    match fault {
        ReportFault::Open(OpenFault::Unmade) => {
            say_of(
                rt,
                5,
                path,
                "it is not a journal that vnfm init has finished",
            )
        }
        ReportFault::Open(OpenFault::Foreign(place)) => say_foreign(rt, path, *place),
        ReportFault::Open(OpenFault::BadRecord(n)) | ReportFault::Tell(TellFault::BadRecord(n)) => {
            say_bad(rt, path, *n)
        }
        ReportFault::Open(OpenFault::Disk) | ReportFault::Tell(TellFault::Disk) => {
            say_of(rt, 3, path, lost_text(why))
        }
        ReportFault::Open(OpenFault::Memory) | ReportFault::Tell(TellFault::Memory) => starved(rt),
        ReportFault::NoInstance => say(rt, 4, "no such instance"),
        ReportFault::NoOccurrence => say(rt, 4, "no such occurrence"),
        ReportFault::Tell(TellFault::Output) => say(rt, 7, "the output couldn't be written"),
    }
}

/// What is said of a file that couldn't be had, or on which a call failed.
fn lost_text(why: Option<WhyLost>) -> &'static str {
    match why {
        Some(WhyLost::Locked) => "a manager holds its lock; copy the file, and give the copy",
        Some(WhyLost::NoFolder) => "there is no such file",
        Some(WhyLost::NotPermitted) => "there is no permission to read it",
        Some(WhyLost::NotAFile) => "it is not a regular file",
        Some(WhyLost::LinkLoop) => "its symbolic links form a loop, or are too many",
        Some(WhyLost::NameTooLong) => "a name in the path, or all of it, is too long",
        _ => "a call on it failed; if its disk did, the kernel's log says how",
    }
}

/// Says that a file's header differs first at this place. One of format 1 differs in byte 8.
fn say_foreign(rt: &HostRuntime, path: &str, place: u64) -> u8 {
    let _ = eprintln!(rt;
        "vnfm_history: {path:?}: it is not a journal of this format: byte {place}"
    );
    5
}

/// Says that a journal has a bad record.
fn say_bad(rt: &HostRuntime, path: &str, n: u64) -> u8 {
    let _ = eprintln!(rt;
        "vnfm_history: {path:?}: bad record {n}: it is broken, or isn't allowed there"
    );
    8
}

/// Says this of a path, and gives the status.
fn say_of(rt: &HostRuntime, status: u8, path: &str, text: &str) -> u8 {
    let _ = eprintln!(rt; "vnfm_history: {path:?}: {text}");
    status
}

/// Says this, and gives the status.
fn say(rt: &HostRuntime, status: u8, text: &str) -> u8 {
    let _ = eprintln!(rt; "vnfm_history: {text}");
    status
}

/// Prints a page, and gives the program's status.
fn print(rt: &HostRuntime, page: &str) -> u8 {
    match print!(rt; "{page}") {
        Ok(()) => 0,
        Err(_) => 7,
    }
}

/// Says that the words are others, and gives the program's status.
fn misused(rt: &HostRuntime) -> u8 {
    let _ = eprintln!(rt;
        "usage: vnfm_history --journal PATH [--instance ID] [--occurrence ID] [--html]"
    );
    2
}

/// Says that there is no memory, and gives the program's status.
fn starved(rt: &HostRuntime) -> u8 {
    say(rt, 6, "out of memory")
}
