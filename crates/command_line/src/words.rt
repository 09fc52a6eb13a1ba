//! The words of the command line.
ghost use Rattle.std.specs.Prelude.{◌≡◌, List, IfOk, Some, codes, map, unwrap_or};
ghost use Rattle.clap.specs.Words.{first_value, found_of};
ghost use Rattle.lcm_events.specs.declared.states.Role.TheVariants.{Orchestrator};
ghost use Rattle.command_line.specs.Found.{HasValues};
ghost use Rattle.command_line.specs.Words.{Pair, Settles, Word, count_of, number_of, parted, role_of, rounds_for};
ghost use Rattle.command_line.specs.Words.{settings_for, settings_of, start_of};

use crate::matches::matches_of;
use crate::options::{Command, Settings, SettingsFault};
use crate::shape::{command_of, count_of, number_of, role_of, start_of};
use clap::ArgMatches;
use lcm_events::Role;
use std::alloc::{AllocError, Global};
use vnfm_base::Text;

/// What the words set.
///
/// Refusals: `Usage` exactly where the words are no command; `Memory`, where there is none for what they set.
/// Source: own rule, docs/FORMATS.md, "The program".
pub fn settings(alloc: Global, words: &[Text]) -> Result<Settings, SettingsFault>
    ensures { Settles result (settings_of words.now) }
{
    match command_of(words) {
        Some(command) => set(alloc, command, words),
        None => Err(SettingsFault::Usage),
    }
}

/// What the words set, which are this command with its options.
fn set(alloc: Global, command: Command, words: &[Text]) -> Result<Settings, SettingsFault>
    requires { (pairs : List Pair) × (parted words.now ≡ Some (command, pairs)) }
    ensures { Settles result (settings_of words.now) }
{
    let Ok(texts) = texts_of(alloc, words) else {
        return Err(SettingsFault::Memory);
    };
    let Ok(matches) = matches_of(alloc, &texts) else {
        return Err(SettingsFault::Memory);
    };
    match settings_by(alloc, command, &matches) {
        Ok(settings) => Ok(settings),
        Err(AllocError) => Err(SettingsFault::Memory),
    }
}

/// The words, as `clap` takes them.
fn texts_of<'a>(alloc: Global, words: &'a [Text]) -> Result<Vec<&'a str>, AllocError>
    ensures { IfOk result (λ texts. map (λ text. text.now) texts.items ≡ words.entry.now) }
{
    let mut texts = Vec::new(alloc);
    for word in words {
        texts.push(word.as_str())?;
    }
    Ok(texts)
}

/// What a command sets, by the values of its options.
fn settings_by(
    alloc: Global,
    command: Command,
    matches: &ArgMatches<'_>,
) -> Result<Settings, AllocError>
    ensures { IfOk result (λ settings. (pairs : List Pair) → HasValues (found_of matches.now) pairs
        → settings ≡ settings_for command pairs) }
{
    Ok(Settings {
        command,
        journal: text(alloc, matches, "journal")?,
        manager: number(matches, "manager"),
        role: role(matches),
        rounds: rounds(command, matches),
        listen: text(alloc, matches, "listen")?,
        em_listen: text(alloc, matches, "em-listen")?,
        orchestrator: text(alloc, matches, "orchestrator")?,
        vim: text(alloc, matches, "vim")?,
        to: text(alloc, matches, "to")?,
        start: start(matches),
        count: count(matches),
    })
}

/// How many rounds a command makes, by what its words say.
fn rounds(command: Command, matches: &ArgMatches<'_>) -> u32
    ensures { (word : Word) → first_value (found_of matches.now) (codes "rounds") ≡ Some word
        → result ≡ rounds_for command (number_of word) }
{
    rounds_for(command, number_of(value(matches, "rounds")))
}

/// How many rounds a command makes, which is told so many: only `once` and `serve` make some.
fn rounds_for(command: Command, told: Option<u32>) -> u32
    ensures { result ≡ rounds_for command told }
{
    match command {
        Command::Once => told.unwrap_or(1),
        Command::Serve => told.unwrap_or(u32::MAX),
        Command::Init | Command::Onboard | Command::Check | Command::Migrate | Command::Trial => 0,
    }
}

/// An option's value, as a text of its own.
fn text(alloc: Global, matches: &ArgMatches<'_>, name: &str) -> Result<Text, AllocError>
    ensures { IfOk result (λ text. (word : Word) → first_value (found_of matches.now) name.now ≡ Some word
        → text ≡ word) }
{
    let text = String::from_str(alloc, value(matches, name))?;
    Ok(Text::of_string(text))
}

/// An option's value, as a number.
fn number(matches: &ArgMatches<'_>, name: &str) -> u32
    ensures { (word : Word) → first_value (found_of matches.now) name.now ≡ Some word
        → result ≡ unwrap_or (number_of word) 0 }
{
    number_of(value(matches, name)).unwrap_or(0)
}

/// The value of `--role`.
fn role(matches: &ArgMatches<'_>) -> Role
    ensures { (word : Word) → first_value (found_of matches.now) (codes "role") ≡ Some word
        → result ≡ unwrap_or (role_of word) Orchestrator }
{
    role_of(value(matches, "role")).unwrap_or(Role::Orchestrator)
}

/// An option's value.
fn value<'a>(matches: &ArgMatches<'a>, name: &str) -> &'a str
    ensures { (word : Word) → first_value (found_of matches.now) name.now ≡ Some word → result.now ≡ word }
{
    matches.get_str(name).unwrap_or("")
}

/// The value of `--start`.
fn start(matches: &ArgMatches<'_>) -> u64
    ensures { (word : Word) → first_value (found_of matches.now) (codes "start") ≡ Some word
        → result ≡ unwrap_or (start_of word) 0 }
{
    start_of(value(matches, "start")).unwrap_or(0)
}

/// The value of `--count`.
fn count(matches: &ArgMatches<'_>) -> u32
    ensures { (word : Word) → first_value (found_of matches.now) (codes "count") ≡ Some word
        → result ≡ unwrap_or (count_of word) 0 }
{
    count_of(value(matches, "count")).unwrap_or(0)
}
