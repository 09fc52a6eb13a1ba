//! Acts that start the program over files and streams in memory, of whose calls some go wrong: its status, what it
//! prints and tells, and the files that it leaves.
ghost use Rattle.std.specs.Prelude.{◌≡◌, ◌≤◌, ◌+◌, length, true};

use crate::checks::{holds, same_number};
use crate::stage::Stage;
use case_lives::{ActFault, CaseFault, count, entries, list, number, same_file, same_text, word};
use host_calls::{HostFile, HostFiles, InStream, OutStream, TimeOfDay};
use lcm_events::Role;
use lcm_mouth::Mouth;
use outside_edges::{NoCourier, NoJobs, NoOrchestrator, RealClock, RealDoor, RealSink, RealSite};
use serde_json::Value;
use site_traits::{Sink, Site};
use standard_streams::{HeldStreams, NullDevice};
use std::alloc::{AllocError, Global};
use std::io;
use std::io::ErrorKind;
use std::time::Duration;
use vnfm_program::{Machine, start};

/// Which calls go wrong, and how many bytes a stream handles at once. Each object has its own, and counts its own
/// calls.
#[derive(Clone, Copy)]
struct Wrong {
    /// The most bytes that a call on a stream takes or gives. A read gives one at least, where there is one.
    piece: usize,
    /// The name of the calls that go wrong.
    call: &'static str,
    /// The first of these that does, from 1.
    first: u64,
    /// The last of these that does.
    last: u64,
    /// How they fail.
    kind: ErrorKind,
    /// How many calls of this name were made.
    calls: u64,
}

impl Wrong {
    /// Fails where a call of this name goes wrong now.
    fn pass(&mut self, call: &str) -> io::Result<()> {
        if call != self.call {
            return Ok(());
        }
        self.calls = self.calls.saturating_add(1);
        if self.first <= self.calls && self.calls <= self.last {
            return Err(io::Error::from(self.kind));
        }
        Ok(())
    }
}

/// What holds a number.
#[derive(Drop)]
struct Held;

/// A null device that can always be opened.
#[derive(Drop)]
struct Null;

impl NullDevice for Null {
    type Held = Held;

    ghost tells = { ⊥ };

    ghost numbers = { λ _. record { taken = λ _. ⊥; opened = 0; failed = 0 } };

    fn open(&mut self) -> io::Result<Held> {
        Ok(Held)
    }
}

/// A file in memory.
#[derive(Drop)]
struct MemFile {
    bytes: Vec<u8>,
    wrong: Wrong,
}

impl HostFile for MemFile {
    ghost use Rattle.site_traits.specs.Site.{untold};
    ghost use Rattle.host_calls.specs.Files.{whole};

    ghost tells = { ⊥ };

    ghost state = { λ _. untold };

    ghost hold = { λ _. whole };

    ghost calls = { λ _. 0 };

    fn length(&mut self) -> io::Result<u64> {
        self.wrong.pass("length")?;
        Ok(self.bytes.len() as u64)
    }

    fn read_exact_at(&mut self, into: &mut [u8], at: u64) -> io::Result<()> {
        self.wrong.pass("read")?;
        let place = place_of(at);
        if !has(&self.bytes, place, into.len()) {
            return Err(io::Error::from(ErrorKind::UnexpectedEof));
        }
        into.copy_from_slice(&self.bytes[place..place + into.len()]);
        Ok(())
    }

    fn write_all_at(&mut self, bytes: &[u8], at: u64) -> io::Result<()> {
        self.wrong.pass("write")?;
        let place = place_of(at);
        if has(&self.bytes, place, bytes.len()) {
            self.bytes[place..place + bytes.len()].copy_from_slice(bytes);
        } else {
            self.bytes.truncate(place);
            self.bytes.extend_from_slice(bytes)?;
        }
        Ok(())
    }

    fn set_len(&mut self, to: u64) -> io::Result<()> {
        self.bytes.truncate(place_of(to));
        Ok(())
    }

    fn sync_data(&mut self) -> io::Result<()> {
        self.wrong.pass("sync")
    }
}

/// A file of the program's runs that is opened and isn't lent.
#[derive(Drop)]
struct MemOpened {
    bytes: Vec<u8>,
}

/// Whether so many bytes stand at this place.
fn has(bytes: &[u8], place: usize, count: usize) -> bool
    ensures { result ≡ true → place + count ≤ length bytes.now }
{
    place <= bytes.len() && count <= bytes.len() - place
}

/// A place in a file in memory.
fn place_of(at: u64) -> usize {
    usize::try_from(at).unwrap_or(usize::MAX)
}

/// The path of the file to which a journal is migrated.
const NEW: &str = "new";

/// A folder with one file or none at the path `new`, and with another or none at each other path, and where one can be
/// made.
#[derive(Drop)]
struct MemFiles<'a> {
    alloc: Global,
    file: Option<&'a [u8]>,
    new: Option<&'a [u8]>,
    wrong: Wrong,
    made: u64,
}

impl<'a> MemFiles<'a> {
    /// The file at this path, where there is one.
    fn at(&self, path: &str) -> Option<&'a [u8]> {
        if path == NEW { self.new } else { self.file }
    }
}

impl<'a> HostFiles for MemFiles<'a> {
    ghost use Rattle.host_calls.specs.Files.{new_file, nothing, whole};

    type Opened = MemOpened;

    type File = MemFile;

    type Held = Held;

    ghost tells = { ⊥ };

    ghost state = { λ _. nothing };

    ghost standing = { λ _. new_file };

    ghost hold = { λ _. whole };

    fn open(&mut self, _streams: &HeldStreams<Held>, path: &str) -> io::Result<MemOpened> {
        self.wrong.pass("open")?;
        let Some(file) = self.at(path) else {
            return Err(io::Error::from(ErrorKind::NotFound));
        };
        Ok(MemOpened {
            bytes: file.to_vec(self.alloc)?,
        })
    }

    fn create_new(&mut self, _streams: &HeldStreams<Held>, _path: &str) -> io::Result<MemOpened> {
        self.wrong.pass("create")?;
        self.made = self.made.saturating_add(1);
        Ok(MemOpened {
            bytes: Vec::new(self.alloc),
        })
    }

    fn sync_folder(&mut self, _streams: &HeldStreams<Held>, _path: &str) -> io::Result<()> {
        self.wrong.pass("folder")
    }

    fn is_regular(&mut self, _opened: &mut MemOpened) -> io::Result<bool> {
        self.wrong.pass("kind")?;
        Ok(self.wrong.pass("regular").is_ok())
    }

    fn try_lock(&mut self, _opened: &mut MemOpened) -> io::Result<()> {
        self.wrong.pass("lock")
    }

    fn forget_pages(&mut self, _opened: &mut MemOpened) -> io::Result<()> {
        self.wrong.pass("pages")
    }

    fn lend(&mut self, opened: MemOpened) -> MemFile {
        MemFile {
            bytes: opened.bytes,
            wrong: self.wrong,
        }
    }
}

/// A stream that these bytes come in.
#[derive(Drop)]
struct Coming<'a> {
    left: &'a [u8],
    wrong: Wrong,
}

impl InStream for Coming<'_> {
    ghost use Rattle.host_calls.specs.Streams.{nothing, uncalled};

    ghost tells = { ⊥ };

    ghost state = { λ _. nothing };

    ghost calls = { λ _. uncalled };

    fn read(&mut self, into: &mut [u8]) -> io::Result<usize> {
        self.wrong.pass("receive")?;
        let left = self.left;
        let count = self.wrong.piece.max(1).min(left.len().min(into.len()));
        into[..count].copy_from_slice(&left[..count]);
        self.left = &left[count..];
        Ok(count)
    }
}

/// A stream to which bytes are written by calls of this name.
#[derive(Drop)]
struct Going<'a> {
    name: &'a str,
    out: &'a mut Vec<u8>,
    wrong: Wrong,
}

impl OutStream for Going<'_> {
    ghost use Rattle.std.specs.Prelude.{[]};
    ghost use Rattle.host_calls.specs.Streams.{uncalled};

    ghost tells = { ⊥ };

    ghost state = { λ _. [] };

    ghost calls = { λ _. uncalled };

    fn write(&mut self, bytes: &[u8]) -> io::Result<usize> {
        self.wrong.pass(self.name)?;
        let count = self.wrong.piece.min(bytes.len());
        self.out.extend_from_slice(&bytes[..count])?;
        Ok(count)
    }

    fn write_all(&mut self, bytes: &[u8]) -> io::Result<()> {
        let answer = self.wrong.pass(self.name);
        let most = if answer.is_ok() {
            bytes.len()
        } else {
            self.wrong.piece
        };
        let count = most.min(bytes.len());
        self.out.extend_from_slice(&bytes[..count])?;
        answer
    }
}

/// A time of day, 999,999 ns past a whole millisecond.
#[derive(Drop)]
struct Day;

impl TimeOfDay for Day {
    ghost use Rattle.std.specs.Prelude.{None};

    ghost tells = { ⊥ };

    ghost reading = { λ _. None };

    ghost calls = { λ _. 0 };

    fn since_1970(&mut self) -> Option<Duration> {
        Some(Duration::new(1_700_000_000, 999_999))
    }
}

/// What the program is started over.
#[derive(Clone, Copy)]
struct Before<'a> {
    /// The file that stands at the path, where one does.
    file: Option<&'a [u8]>,
    /// The file that stands at the path `new`, where one does.
    new: Option<&'a [u8]>,
    /// What comes in.
    input: &'a [u8],
    /// The calls that go wrong.
    wrong: Wrong,
    /// Whether there is memory for the mouth.
    has_mouth: bool,
}

/// What came of a run.
struct Seen {
    /// The program's status.
    status: u8,
    /// How many files were made.
    made: u64,
    /// Standard output, of the connection.
    told: Vec<u8>,
    /// Standard output, of lines.
    lines: Vec<u8>,
    /// Standard error.
    errors: Vec<u8>,
    /// The file's bytes, where it was had.
    left: Option<Vec<u8>>,
    /// Those of the file to which a journal is migrated, where it was had.
    new_left: Option<Vec<u8>>,
}

impl Drop for Seen {
    // Written out, so that the proof of a caller calls it and doesn't take the value apart at each of its ends.
    fn drop(self) {
        let Seen {
            status: _,
            made: _,
            told: _,
            lines: _,
            errors: _,
            left: _,
            new_left: _,
        } = self;
    }
}

/// A mouth over the streams, which puts what it tells here.
fn mouth_at<'a>(
    alloc: Global,
    before: Before<'a>,
    told: &'a mut Vec<u8>,
) -> Result<Mouth<RealDoor<Coming<'a>, Going<'a>>>, AllocError> {
    if !before.has_mouth {
        return Err(AllocError);
    }
    let input = Coming {
        left: before.input,
        wrong: before.wrong,
    };
    let output = Going {
        name: "send",
        out: told,
        wrong: before.wrong,
    };
    Mouth::new(alloc, RealDoor::made(input, output, Role::Orchestrator))
}

/// The program's name, and the words behind it.
fn arguments_of(alloc: Global, words: &[Value]) -> Result<Vec<String>, CaseFault> {
    let mut all = Vec::new(alloc);
    put_argument(alloc, &mut all, "vnfm")?;
    for place in 0..words.len() {
        put_argument(alloc, &mut all, word(words, place)?)?;
    }
    Ok(all)
}

/// Puts this word.
fn put_argument(alloc: Global, into: &mut Vec<String>, word: &str) -> Result<(), AllocError> {
    into.push(String::from_str(alloc, word)?)?;
    Ok(())
}

/// The bytes of this site's file, where it was had.
fn content<S: Site>(alloc: Global, site: &mut S) -> Option<Vec<u8>> {
    let Ok(length) = site.length() else {
        return None;
    };
    let mut bytes = Vec::new(alloc);
    let Ok(()) = bytes.resize(length as usize, 0) else {
        return None;
    };
    match site.read_at(0, &mut bytes) {
        Ok(()) => Some(bytes),
        Err(_) => None,
    }
}

/// What was left by a program that was started.
#[derive(Drop)]
struct Left {
    /// Its status.
    status: u8,
    /// How many files were made.
    made: u64,
    /// The file's bytes, where it was had.
    file: Option<Vec<u8>>,
    /// Those of the file to which a journal is migrated, where it was had.
    new: Option<Vec<u8>>,
}

/// Starts the program with these arguments over this, with what it tells and prints put here.
fn play(
    alloc: Global,
    arguments: Vec<String>,
    before: Before<'_>,
    told: &mut Vec<u8>,
    lines: &mut Vec<u8>,
    errors: &mut Vec<u8>,
) -> Left {
    let wrong = before.wrong;
    let mut mouth = mouth_at(alloc, before, told);
    let mut machine = machine_of(
        MemFiles {
            alloc,
            file: before.file,
            new: before.new,
            wrong,
            made: 0,
        },
        RealSink::made(Going {
            name: "print",
            out: lines,
            wrong,
        }),
        RealSink::made(Going {
            name: "tell",
            out: errors,
            wrong,
        }),
    );
    let status = start(alloc, Ok(arguments.into_iter()), &mut mouth, &mut machine);
    let made = machine.files.made;
    let (file, new) = contents(alloc, &mut machine);
    Left {
        status,
        made,
        file,
        new,
    }
}

/// A machine over these files and sinks, with no peers.
fn machine_of<H: HostFiles, L: Sink, E: Sink>(
    files: H,
    lines: L,
    errors: E,
) -> Machine<Null, H, NoJobs, NoOrchestrator, NoCourier, RealClock<Day>, L, E> {
    Machine {
        device: Null,
        files,
        site: RealSite::made(NoJobs::made()),
        spare: RealSite::made(NoJobs::made()),
        orchestrator: NoOrchestrator::made(),
        courier: NoCourier::made(),
        clock: RealClock::made(Day),
        lines,
        errors,
    }
}

/// The bytes of the file of each of its sites, where it was had.
fn contents<H: HostFiles, L: Sink, E: Sink>(
    alloc: Global,
    machine: &mut Machine<Null, H, NoJobs, NoOrchestrator, NoCourier, RealClock<Day>, L, E>,
) -> (Option<Vec<u8>>, Option<Vec<u8>>) {
    let file = content(alloc, &mut machine.site);
    let new = content(alloc, &mut machine.spare);
    (file, new)
}

/// What comes of these arguments over this.
fn seen_of(alloc: Global, arguments: Vec<String>, before: Before<'_>) -> Seen {
    let mut told = Vec::new(alloc);
    let mut lines = Vec::new(alloc);
    let mut errors = Vec::new(alloc);
    let left = play(alloc, arguments, before, &mut told, &mut lines, &mut errors);
    Seen {
        status: left.status,
        made: left.made,
        told,
        lines,
        errors,
        left: left.file,
        new_left: left.new,
    }
}

/// The kind of fault of this name.
fn kind_of(name: &str) -> Result<ErrorKind, CaseFault> {
    match name {
        "NotFound" => Ok(ErrorKind::NotFound),
        "NotADirectory" => Ok(ErrorKind::NotADirectory),
        "IsADirectory" => Ok(ErrorKind::IsADirectory),
        "PermissionDenied" => Ok(ErrorKind::PermissionDenied),
        "ReadOnlyFilesystem" => Ok(ErrorKind::ReadOnlyFilesystem),
        "AlreadyExists" => Ok(ErrorKind::AlreadyExists),
        "FilesystemLoop" => Ok(ErrorKind::FilesystemLoop),
        "InvalidFilename" => Ok(ErrorKind::InvalidFilename),
        "StorageFull" => Ok(ErrorKind::StorageFull),
        "QuotaExceeded" => Ok(ErrorKind::QuotaExceeded),
        "FileTooLarge" => Ok(ErrorKind::FileTooLarge),
        "WouldBlock" => Ok(ErrorKind::WouldBlock),
        "OutOfMemory" => Ok(ErrorKind::OutOfMemory),
        "Interrupted" => Ok(ErrorKind::Interrupted),
        "Other" => Ok(ErrorKind::Other),
        _ => Err(CaseFault::Spelling),
    }
}

/// The name of a call that may go wrong.
fn call_of(name: &str) -> Result<&'static str, CaseFault> {
    match name {
        "open" => Ok("open"),
        "create" => Ok("create"),
        "folder" => Ok("folder"),
        "kind" => Ok("kind"),
        "lock" => Ok("lock"),
        "pages" => Ok("pages"),
        "regular" => Ok("regular"),
        "length" => Ok("length"),
        "read" => Ok("read"),
        "write" => Ok("write"),
        "sync" => Ok("sync"),
        "receive" => Ok("receive"),
        "send" => Ok("send"),
        "print" => Ok("print"),
        "tell" => Ok("tell"),
        _ => Err(CaseFault::Spelling),
    }
}

/// What goes wrong by a plan: the pieces, the name of the calls, the first and the last of them, and their fault.
fn wrong_of(plan: &Value) -> Result<Wrong, CaseFault> {
    let Some(wrong) = plan.get("wrong") else {
        return Ok(Wrong {
            piece: usize::MAX,
            call: "",
            first: 0,
            last: 0,
            kind: ErrorKind::Other,
            calls: 0,
        });
    };
    let wrong = entries(wrong)?;
    Ok(Wrong {
        piece: count(wrong, 0)?,
        call: call_of(word(wrong, 1)?)?,
        first: number(wrong, 2)?,
        last: number(wrong, 3)?,
        kind: kind_of(word(wrong, 4)?)?,
        calls: 0,
    })
}

/// The program told this; nothing, where there is no text.
fn is_told(alloc: Global, text: Option<Vec<u8>>, seen: &Seen) -> Result<(), ActFault> {
    same_text(alloc, text.as_deref().unwrap_or(b""), &seen.told)
}

/// The program left this of a file of which that was had; no file, where there is no text.
fn is_left(alloc: Global, text: Option<Vec<u8>>, left: Option<&[u8]>) -> Result<(), ActFault> {
    match (text.as_deref(), left) {
        (Some(wanted), Some(came)) => same_file(alloc, wanted, came),
        (Some(_), None) => holds(alloc, false, "a file that was had", "none"),
        (None, Some(_)) => holds(alloc, false, "no file that was had", "one"),
        (None, None) => Ok(()),
    }
}

/// Printed bytes are the word at this place of an act.
fn is_printed(alloc: Global, printed: &[u8], act: &[Value], place: usize) -> Result<(), ActFault> {
    same_text(alloc, word(act, place)?.as_bytes(), printed)
}

/// An act has this behind its words: the status, what was printed, what was told on standard error, and how many files
/// were made.
fn is_said(alloc: Global, seen: &Seen, act: &[Value]) -> Result<(), ActFault> {
    same_number(alloc, "status", number(act, 2)?, u64::from(seen.status))?;
    is_printed(alloc, &seen.lines, act, 3)?;
    is_printed(alloc, &seen.errors, act, 4)?;
    same_number(alloc, "files made", number(act, 5)?, seen.made)
}

impl Stage {
    /// The text that a plan has under this name, where it has one.
    fn planned(
        &self,
        alloc: Global,
        plan: &Value,
        name: &str,
    ) -> Result<Option<Vec<u8>>, CaseFault> {
        match plan.get(name) {
            Some(text) => Ok(Some(self.names.text(alloc, text)?)),
            None => Ok(None),
        }
    }

    /// A plan has this as what is told and left.
    fn is_planned(&self, alloc: Global, seen: &Seen, plan: &Value) -> Result<(), ActFault> {
        is_told(alloc, self.planned(alloc, plan, "told")?, seen)?;
        is_left(
            alloc,
            self.planned(alloc, plan, "left")?,
            seen.left.as_deref(),
        )?;
        is_left(
            alloc,
            self.planned(alloc, plan, "new left")?,
            seen.new_left.as_deref(),
        )
    }

    /// The program with the words of this act, over this, comes to what the act and its plan have.
    fn comes_out(
        &self,
        alloc: Global,
        act: &[Value],
        plan: &Value,
        before: Before<'_>,
    ) -> Result<(), ActFault> {
        let arguments = arguments_of(alloc, list(act, 1)?)?;
        let seen = seen_of(alloc, arguments, before);
        is_said(alloc, &seen, act)?;
        self.is_planned(alloc, &seen, plan)
    }

    /// `["start", WORDS, STATUS, PRINTED, ERRORS, MADE, PLAN]`: the program with these words ends with this status,
    /// prints this to standard output and that to standard error, and makes so many files. Where the plan, an object,
    /// has a `file`, that stands at each path but `new`, where its `new` stands, and what it has as `input` comes in.
    /// What it has as `told` is told on the connection. Of the journal's file `left` are the bytes, and of the one to
    /// which that is migrated `new left`, each of which it has exactly where that file was had.
    ///
    /// `"wrong": [PIECE, CALL, FIRST, LAST, KIND]` in it: streams take and give PIECE bytes at once at most, and of the
    /// calls of this name on an object the FIRST to the LAST fail with this `ErrorKind`: of the folder `open`, `create`
    /// and `folder`, a sync of it, and of a file that is opened `kind`, `lock`, `pages`, and `regular`, where it isn't;
    /// of each file that is lent `length`, `read`, `write` and `sync`; of the streams `receive` and `send` on the
    /// connection, `print` and `tell` on standard output and standard error, which write a piece before they fail.
    ///
    /// `["start without a mouth", ..]` is the same where there was no memory for the mouth.
    pub fn starts(&self, alloc: Global, act: &[Value], has_mouth: bool) -> Result<(), ActFault> {
        let plan = act.get(6).unwrap_or(&Value::Null);
        let wrong = wrong_of(plan)?;
        let file = self.planned(alloc, plan, "file")?;
        let new = self.planned(alloc, plan, "new")?;
        let input = self.planned(alloc, plan, "input")?;
        let before = Before {
            file: file.as_deref(),
            new: new.as_deref(),
            input: input.as_deref().unwrap_or(b""),
            wrong,
            has_mouth,
        };
        self.comes_out(alloc, act, plan, before)
    }
}
