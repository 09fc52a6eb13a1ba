//! The texts that are asked for by words alone.
ghost use Rattle.std.specs.Prelude.{◌≡◌};
ghost use Rattle.program_words.specs.Pages.{command_page, page_of, sole_page, text_of};

use vnfm_base::Text;

/// A text that the program prints and then ends.
#[derive(Clone, Copy)]
pub enum Page {
    /// What the program's words are.
    Help,
    /// What those of `init` are.
    Init,
    /// What those of `onboard` are.
    Onboard,
    /// What those of `once` are.
    Once,
    /// What those of `serve` are.
    Serve,
    /// What those of `check` are.
    Check,
    /// What those of `migrate` are.
    Migrate,
    /// What those of `trial` are.
    Trial,
    /// The program's version.
    Version,
}

/// What `--help` prints.
const HELP: &str = "vnfm: a VNF lifecycle manager after ETSI GS NFV-SOL 003 V2.6.1

    vnfm init --journal PATH --manager N    make the journal of manager N, from 0 to 4294967295, at PATH
    vnfm onboard --journal PATH             onboard the descriptor on standard input, a JSON document
    vnfm once --journal PATH [OPTION..]     answer the requests on standard input, and record what they ask for
    vnfm serve --journal PATH --listen ADDR --em-listen ADDR [OPTION..]
                                            answer the requests that come at two addresses, until it is stopped
    vnfm check --journal PATH               count what the journal at PATH has, and change nothing
    vnfm migrate --journal PATH --to PATH   make a journal of the present format of one of format 1
    vnfm trial --start N --count N          play requests drawn from a number over objects in memory
    vnfm COMMAND --help                     print the words of a command, with an example
    vnfm --help                             print this text
    vnfm --version                          print the version

Options stand behind the command in any order, each at most once with its value, which doesn't begin with -.

init takes a file that isn't there, is empty or has one byte, begins with a small v, or was left unfinished by an
init of the same manager. It overwrites what such a file holds. Any other file is taken, and stays as it is: look at
what it is, and give another PATH, or move it away first. migrate does the same with the file at --to, for the
manager of the journal that it reads.

The answer of once goes to standard output. A last line, of once on standard error and else on standard output, says
how it went:
    0  journal made for manager N
    0  onboarded ID: V vdus, A aspects, L levels
    0  done after N rounds      the requests were answered, with a refusal too
    0  records R, instances I, ongoing G, subscriptions S
    0  migrated N records       the journal at --to has all that the old one has
    0  requests N, accepted A, refused R      and two lines more, of a trial
    2  usage: ..                the words are no command
    3  site fault               a disk call failed, or a trial's journal passes its room
    4  door fault               there was no connection, or the descriptor couldn't be read
    5  no journal               the file at PATH is unfinished
    5  not a journal: byte N    its header differs first at byte N, which is 8 where it is of another format
    6  no memory
    7                           the line couldn't be written
    8  bad record N             record N is broken, or isn't allowed after those before it
    9  journal full: E + M bytes
   10  descriptor refused: T    T is the first thing that is wrong with it
   11  taken                    the file at PATH, of migrate at --to, isn't an unfinished journal of the manager
Behind the line of a status that isn't 0, a line on standard error that begins `vnfm: ` says why.
";

/// What `init --help` prints.
const INIT: &str =
    "vnfm init --journal PATH --manager N    make the journal of manager N, from 0 to 4294967295, at PATH

    vnfm init --journal journal --manager 7

PATH is made where nothing is. A file that is empty or has one byte, begins with a small v, or was left unfinished by
an init of the same manager is overwritten. Any other file is taken, and stays as it is.
";

/// What `onboard --help` prints.
const ONBOARD: &str =
    "vnfm onboard --journal PATH    onboard the descriptor on standard input, a JSON document

    vnfm onboard --journal journal <examples/vnfd.json

PATH is a journal that init made. The descriptor is read to its end, of at most 1048576 bytes. It is JSON in UTF-8 with
no byte order mark. YAML isn't read; with PyYAML, JSON is made of it by

    python3 -c 'import json, sys, yaml; json.dump(yaml.safe_load(sys.stdin), sys.stdout, default=str)' <FILE.yaml
";

/// What `once --help` prints.
const ONCE: &str =
    "vnfm once --journal PATH [OPTION..]    answer the requests on standard input, and record what they ask for

    --role ROLE            who asks on standard input: orchestrator, as where it isn't given, or em, the element manager
    --rounds N             how many rounds are made, from 0 to 4294967295; 1 where it isn't given. In each the
                           connection is served that comes, if one does, each operation under way is moved on by a
                           step, and each subscription is posted a notice that waits; with 0 nothing is read
    --orchestrator ADDR    where grants are asked for: a literal address and port, or a URL of http with one; nowhere
                           without it
    --vim ADDR             where the infrastructure is: a literal address and port; nowhere without it

    vnfm once --journal journal <examples/create.http
    vnfm once --journal journal --role em --rounds 2 <examples/create.http

PATH is a journal that init made. Standard input is one connection of HTTP/1.1: its requests are answered one by one,
up to its end or to the first that asks to close it. A body has at most 1048576 bytes. The answers go to standard
output.
";

/// What `serve --help` prints.
const SERVE: &str = "vnfm serve --journal PATH --listen ADDR --em-listen ADDR [OPTION..]
                           answer the requests that come at two addresses, until it is stopped

    --listen ADDR          where the orchestrator's requests come: an address and port
    --em-listen ADDR       where the element manager's come: another
    --rounds N             how many rounds are made, from 0 to 4294967295, which is 136 years of seconds where nothing
                           comes; 4294967295 where it isn't given. In each a connection is served that came, if one
                           did, each operation under way is moved on by a step, and each subscription is posted a
                           notice that waits
    --orchestrator ADDR    where grants are asked for: a literal address and port, or a URL of http with one; nowhere
                           without it
    --vim ADDR             where the infrastructure is: a literal address and port; nowhere without it

    vnfm serve --journal journal --listen 127.0.0.1:8880 --em-listen 127.0.0.1:8881 --vim 127.0.0.1:8890 \\
        --orchestrator 127.0.0.1:8891

PATH is a journal that init made. Each connection is one of HTTP/1.1; what it is told is on the disk before. It may be
stopped at any moment, by SIGTERM or otherwise, and started again: it goes on with all that it told of. Standard error
says where it listens, and then, at most once a second for each kind of peer, how many calls on it have failed so far.
";

/// What `check --help` prints.
const CHECK: &str =
    "vnfm check --journal PATH    count what the journal at PATH has, and change nothing

    vnfm check --journal journal

PATH is a journal that init made. It is read whole and judged, as by each command that opens it, and stays as it is.
Counted are its records, the VNF instances that aren't deleted, the operations that haven't ended (STARTING, PROCESSING,
FAILED_TEMP or ROLLING_BACK) and the subscriptions that aren't deleted, of both roles.
";

/// What `migrate --help` prints.
const MIGRATE: &str =
    "vnfm migrate --journal PATH --to PATH    make a journal of the present format of one of format 1

    vnfm migrate --journal old --to journal

The first PATH is a journal of format 1, which the other commands refuse as not a journal: byte 8. It is read whole and
judged, and stays as it is. At the second PATH a journal of the present format is made, of the same manager and with the
same records. That file is made where nothing is; one that is empty or has one byte, begins with a small v, or was left
unfinished for the same manager is overwritten, as by init. Any other file is taken, and stays as it is.

Behind status 0 the old file may be kept or deleted. A migrate that was stopped half-way is simply run again.
";

/// What `trial --help` prints.
const TRIAL: &str =
    "vnfm trial --start N --count N    play requests drawn from a number over objects in memory

    vnfm trial --start 1 --count 100

--start is the number that the requests are drawn from, from 0 to 18446744073709551615, and --count how many steps are
made, from 0 to 2000. Each step makes at most one request and then moves each operation on by three steps, over an
infrastructure that refuses each sixteenth job and an orchestrator that grants all. No file and no address is used. Three
lines say what came of it, the same for the same numbers.
";

/// What `--version` prints.
const VERSION: &str = "vnfm 0.1.0\n";

impl Page {
    /// The text.
    pub fn text(self) -> &'static str
        ensures { result.now ≡ text_of self }
    {
        match self {
            Page::Help => HELP,
            Page::Init => INIT,
            Page::Onboard => ONBOARD,
            Page::Once => ONCE,
            Page::Serve => SERVE,
            Page::Check => CHECK,
            Page::Migrate => MIGRATE,
            Page::Trial => TRIAL,
            Page::Version => VERSION,
        }
    }
}

/// The text that the words ask for, where they do: `--help` and `--version` alone, and a command with `--help` alone.
///
/// Source: own rule, docs/FORMATS.md, "The program".
pub fn page_of(words: &[Text]) -> Option<Page>
    ensures { result ≡ page_of words.now }
{
    match words {
        [word] => sole_page(word),
        [command, word] => {
            if word.as_str() == "--help" {
                command_page(command)
            } else {
                None
            }
        }
        _ => None,
    }
}

/// The text that one word asks for.
fn sole_page(word: &Text) -> Option<Page>
    ensures { result ≡ sole_page word.now }
{
    if word.as_str() == "--help" {
        return Some(Page::Help);
    }
    if word.as_str() == "--version" {
        return Some(Page::Version);
    }
    None
}

/// The text on a command.
fn command_page(command: &Text) -> Option<Page>
    ensures { result ≡ command_page command.now }
{
    if command.as_str() == "init" {
        return Some(Page::Init);
    }
    if command.as_str() == "onboard" {
        return Some(Page::Onboard);
    }
    if command.as_str() == "once" {
        return Some(Page::Once);
    }
    if command.as_str() == "serve" {
        return Some(Page::Serve);
    }
    if command.as_str() == "check" {
        return Some(Page::Check);
    }
    if command.as_str() == "migrate" {
        return Some(Page::Migrate);
    }
    if command.as_str() == "trial" {
        return Some(Page::Trial);
    }
    None
}
