//! The program's one call.
ghost use Rattle.std.specs.Prelude.{◌≡◌, ◌⊎◌, IfErr, IfSome, None, Some};
ghost use Rattle.std.specs.IoError.{error_kind};
ghost use Rattle.command_line.specs.Words.{settings_of};
ghost use Rattle.program_words.specs.Pages.{page_of};
ghost use Rattle.program_words.specs.Reasons.{kind_of, reason_of};
ghost use Rattle.vnfm_commands.specs.Outside.{telling};
ghost use Rattle.vnfm_program.specs.Program.{ObeysOrStarves, Performs, SpeaksOnError, SpeaksOnOutput, Starts, answers};
ghost use Rattle.vnfm_program.specs.Program.{TellsIllegible, is_undelivered, uses_files};
ghost use Rattle.vnfm_program.specs.Words.{are_legible, words_in};

use crate::door::AnswerDoor;
use crate::machine::Machine;
use crate::opening::open_files;
use crate::output::{explain, print, starve};
use crate::words::{WordsFault, words_of};
use host_calls::{HostFile, HostFiles};
use lcm_mouth::Mouth;
use outside_edges::{Jobs, NoJobs, RealSite};
use program_words::{Reason, kind_of, page_of, reason_of};
use site_traits::{Clock, Courier, Orchestrator, Sink};
use standard_streams::{NullDevice, hold_streams};
use std::alloc::{AllocError, Global};
use std::env::Args;
use std::io;
use std::io::ErrorKind;
use vnfm_base::Text;
use vnfm_cli::{Command, Settings, SettingsFault, run, settings};

/// The program: it obeys the words behind its name, says how that went, and gives its status.
///
/// - Words that ask for a page have it printed to `lines`, and nothing else is done: 0, or 7 where it couldn't be put.
/// - A command has the file at its path opened, by `files`, while `device` holds the numbers of the standard streams,
///   and is then obeyed by one run over that file, the mouth, the orchestrator, the courier and the clock: `run` says
///   what it does there, and its status. `init` syncs the file's folder each time. `migrate` has the file at the path of
///   `--to` opened too, behind the other and under the same holding, and syncs its folder each time; every other command
///   leaves `spare` as it is. `trial` opens nothing. Where the numbers can't be taken no file is opened, and the run is over the sites as they
///   are.
/// - Words that are no command open nothing, and are run over the sites as they are, which gives 2. So it is where the
///   words can't be read, as where one isn't UTF-8, which is said then.
/// - The run's line goes to `errors` for `once`, and to `lines` for all others. Behind the run nothing is called but
///   `errors`: it gets the one line that says why the run ended so, where there is something to say and memory for it.
/// - Want of memory for the words, the mouth, the settings or to open a file is said on `errors`: 6.
///
/// `arguments` are those of `env::args`: the program's name, and the words.
/// Source: own rule, docs/FORMATS.md, "The program".
pub fn start<
    N: NullDevice,
    H: HostFiles<Held = N::Held>,
    J: Jobs<H::File> + Drop,
    D: AnswerDoor,
    Q: Orchestrator,
    C: Courier,
    K: Clock,
    L: Sink,
    E: Sink,
>(
    alloc: Global,
    arguments: io::Result<Args>,
    mouth: &mut Result<Mouth<D>, AllocError>,
    machine: &mut Machine<N, H, J, Q, C, K, L, E>,
) -> u8
where
    N::Held: Drop,
    ensures starts { Starts (record {
      device_tells = N.tells;
      files_tells = H.tells;
      outside = telling H.File.tells D.tells Q.tells C.tells K.tells;
      lines = L.tells;
      errors = E.tells;
      numbers = N.numbers;
      places = H.state;
      state = H.File.state;
      hold = H.File.hold;
    })
        (are_legible arguments) (words_in arguments) result
        (record { mouth = mouth.old; machine = machine.old })
        (record { mouth = mouth.new; machine = machine.new }) }
    ensures memory { IfErr arguments (λ fault. error_kind fault ≡ ErrorKind.OutOfMemory → result ≡ 6) }
{
    let words = match words_of(alloc, arguments) {
        Ok(words) => words,
        Err(WordsFault::Illegible) => return tell_illegible(alloc, mouth, machine),
        Err(WordsFault::Memory) => return starve(&mut machine.errors),
    };
    match page_of(&words) {
        Some(page) => print(page, &mut machine.lines),
        None => command(alloc, &words, mouth, machine),
    }
}

/// Runs without words, which is no command, and says that they couldn't be read.
fn tell_illegible<
    N: NullDevice,
    H: HostFiles,
    J: Jobs<H::File> + Drop,
    D: AnswerDoor,
    Q: Orchestrator,
    C: Courier,
    K: Clock,
    L: Sink,
    E: Sink,
>(
    alloc: Global,
    mouth: &mut Result<Mouth<D>, AllocError>,
    machine: &mut Machine<N, H, J, Q, C, K, L, E>,
) -> u8
    ensures { TellsIllegible (record {
      device_tells = N.tells;
      files_tells = H.tells;
      outside = telling H.File.tells D.tells Q.tells C.tells K.tells;
      lines = L.tells;
      errors = E.tells;
      numbers = N.numbers;
      places = H.state;
      state = H.File.state;
      hold = H.File.hold;
    })
        result (record { mouth = mouth.old; machine = machine.old })
        (record { mouth = mouth.new; machine = machine.new }) }
{
    let Ok(mouth) = mouth else {
        return starve(&mut machine.errors);
    };
    let status = run(
        alloc,
        &[],
        &mut machine.site,
        &mut machine.spare,
        mouth,
        &mut machine.orchestrator,
        &mut machine.courier,
        &mut machine.clock,
        &mut machine.lines,
    );
    explain(alloc, &[], Some(Reason::Illegible), &mut machine.errors);
    status
}

/// Obeys words that ask for no page.
fn command<
    N: NullDevice,
    H: HostFiles<Held = N::Held>,
    J: Jobs<H::File> + Drop,
    D: AnswerDoor,
    Q: Orchestrator,
    C: Courier,
    K: Clock,
    L: Sink,
    E: Sink,
>(
    alloc: Global,
    words: &[Text],
    mouth: &mut Result<Mouth<D>, AllocError>,
    machine: &mut Machine<N, H, J, Q, C, K, L, E>,
) -> u8
where
    N::Held: Drop,
    ensures { ObeysOrStarves (record {
      device_tells = N.tells;
      files_tells = H.tells;
      outside = telling H.File.tells D.tells Q.tells C.tells K.tells;
      lines = L.tells;
      errors = E.tells;
      numbers = N.numbers;
      places = H.state;
      state = H.File.state;
      hold = H.File.hold;
    })
        words.now result (record { mouth = mouth.old; machine = machine.old })
        (record { mouth = mouth.new; machine = machine.new }) }
{
    let Ok(mouth) = mouth else {
        return starve(&mut machine.errors);
    };
    match settings(alloc, words) {
        Ok(settings) => hold_and_perform(alloc, words, &settings, mouth, machine),
        Err(SettingsFault::Usage) => tell_on_output(alloc, words, mouth, machine),
        Err(SettingsFault::Memory) => starve(&mut machine.errors),
    }
}

/// Whether the words of a command name files: all but those of `trial`.
fn uses_files(command: Command) -> bool
    ensures { result ≡ uses_files command }
{
    match command {
        Command::Trial => false,
        Command::Init
        | Command::Onboard
        | Command::Once
        | Command::Serve
        | Command::Check
        | Command::Migrate => true,
    }
}

/// Takes the numbers of the standard streams and opens the files that the settings name, where they name some, and runs
/// over them.
fn hold_and_perform<
    N: NullDevice,
    H: HostFiles<Held = N::Held>,
    J: Jobs<H::File> + Drop,
    D: AnswerDoor,
    Q: Orchestrator,
    C: Courier,
    K: Clock,
    L: Sink,
    E: Sink,
>(
    alloc: Global,
    words: &[Text],
    settings: &Settings,
    mouth: &mut Mouth<D>,
    machine: &mut Machine<N, H, J, Q, C, K, L, E>,
) -> u8
where
    N::Held: Drop,
    requires { settings_of words.now ≡ Some settings.now }
    ensures { ObeysOrStarves (record {
      device_tells = N.tells;
      files_tells = H.tells;
      outside = telling H.File.tells D.tells Q.tells C.tells K.tells;
      lines = L.tells;
      errors = E.tells;
      numbers = N.numbers;
      places = H.state;
      state = H.File.state;
      hold = H.File.hold;
    })
        words.now result (record { mouth = Ok mouth.old; machine = machine.old })
        (record { mouth = Ok mouth.new; machine = machine.new }) }
{
    if !uses_files(settings.command) {
        return perform(alloc, words, settings.command, mouth, machine);
    }
    match hold_streams(&mut machine.device) {
        Ok(streams) => match open_files(
            &mut machine.files,
            &streams,
            settings,
            &mut machine.site,
            &mut machine.spare,
        ) {
            Ok(()) => perform(alloc, words, settings.command, mouth, machine),
            Err(AllocError) => starve(&mut machine.errors),
        },
        Err(_) => perform(alloc, words, settings.command, mouth, machine),
    }
}

/// Runs over what was opened, and explains the status.
fn perform<
    N: NullDevice,
    H: HostFiles,
    J: Jobs<H::File> + Drop,
    D: AnswerDoor,
    Q: Orchestrator,
    C: Courier,
    K: Clock,
    L: Sink,
    E: Sink,
>(
    alloc: Global,
    words: &[Text],
    command: Command,
    mouth: &mut Mouth<D>,
    machine: &mut Machine<N, H, J, Q, C, K, L, E>,
) -> u8
    ensures { Performs (record {
      device_tells = N.tells;
      files_tells = H.tells;
      outside = telling H.File.tells D.tells Q.tells C.tells K.tells;
      lines = L.tells;
      errors = E.tells;
      numbers = N.numbers;
      places = H.state;
      state = H.File.state;
      hold = H.File.hold;
    })
        (answers command) words.now result (record { mouth = mouth.old; machine = machine.old })
        (record { mouth = mouth.new; machine = machine.new }) }
{
    match command {
        Command::Once => tell_on_error(alloc, words, mouth, machine),
        Command::Init
        | Command::Onboard
        | Command::Serve
        | Command::Check
        | Command::Migrate
        | Command::Trial => tell_on_output(alloc, words, mouth, machine),
    }
}

/// Runs with its line to standard output, and explains the status on standard error.
fn tell_on_output<
    N: NullDevice,
    H: HostFiles,
    J: Jobs<H::File> + Drop,
    D: AnswerDoor,
    Q: Orchestrator,
    C: Courier,
    K: Clock,
    L: Sink,
    E: Sink,
>(
    alloc: Global,
    words: &[Text],
    mouth: &mut Mouth<D>,
    machine: &mut Machine<N, H, J, Q, C, K, L, E>,
) -> u8
    ensures { SpeaksOnOutput (record {
      device_tells = N.tells;
      files_tells = H.tells;
      outside = telling H.File.tells D.tells Q.tells C.tells K.tells;
      lines = L.tells;
      errors = E.tells;
      numbers = N.numbers;
      places = H.state;
      state = H.File.state;
      hold = H.File.hold;
    })
        words.now result (record { mouth = mouth.old; machine = machine.old })
        (record { mouth = mouth.new; machine = machine.new }) }
{
    let status = run(
        alloc,
        words,
        &mut machine.site,
        &mut machine.spare,
        mouth,
        &mut machine.orchestrator,
        &mut machine.courier,
        &mut machine.clock,
        &mut machine.lines,
    );
    explain(
        alloc,
        words,
        reason(words, status, &machine.site, &machine.spare, mouth),
        &mut machine.errors,
    );
    status
}

/// Runs with its line to standard error, and explains the status behind it.
fn tell_on_error<
    N: NullDevice,
    H: HostFiles,
    J: Jobs<H::File> + Drop,
    D: AnswerDoor,
    Q: Orchestrator,
    C: Courier,
    K: Clock,
    L: Sink,
    E: Sink,
>(
    alloc: Global,
    words: &[Text],
    mouth: &mut Mouth<D>,
    machine: &mut Machine<N, H, J, Q, C, K, L, E>,
) -> u8
    ensures { SpeaksOnError (record {
      device_tells = N.tells;
      files_tells = H.tells;
      outside = telling H.File.tells D.tells Q.tells C.tells K.tells;
      lines = L.tells;
      errors = E.tells;
      numbers = N.numbers;
      places = H.state;
      state = H.File.state;
      hold = H.File.hold;
    })
        words.now result (record { mouth = mouth.old; machine = machine.old })
        (record { mouth = mouth.new; machine = machine.new }) }
{
    let status = run(
        alloc,
        words,
        &mut machine.site,
        &mut machine.spare,
        mouth,
        &mut machine.orchestrator,
        &mut machine.courier,
        &mut machine.clock,
        &mut machine.errors,
    );
    explain(
        alloc,
        words,
        reason(words, status, &machine.site, &machine.spare, mouth),
        &mut machine.errors,
    );
    status
}

/// What is to be said of a run of these words with this status.
fn reason<F: HostFile + Drop, J: Jobs<F> + Drop, D: AnswerDoor>(
    words: &[Text],
    status: u8,
    site: &RealSite<F, J>,
    spare: &RealSite<F, NoJobs>,
    mouth: &Mouth<D>,
) -> Option<Reason>
    ensures { result ≡ reason_of (kind_of words.now) status site.now.why spare.now.why (is_undelivered mouth.now)
        mouth.now.account }
{
    reason_of(
        kind_of(words),
        status,
        site.why(),
        spare.why(),
        is_undelivered(mouth),
        mouth.account(),
    )
}

/// Whether a write on the connection failed.
fn is_undelivered<D: AnswerDoor>(mouth: &Mouth<D>) -> bool
    ensures { result ≡ is_undelivered mouth.now }
{
    mouth.door().write_failed()
}
