//! Which command the words are.
ghost use Rattle.std.specs.Prelude.{◌≡◌, List, Some, option_map};
ghost use Rattle.std.specs.Char.{is_ascii_digit};
ghost use Rattle.std.specs.List.{list_all, list_any};
ghost use Rattle.std.specs.Str.{bytes_eq};
ghost use Rattle.command_line.specs.Words.{Pair, are_taken, command_named, fits, is_number, is_option, needed_of};
ghost use Rattle.command_line.specs.Words.{count_of, number_of, options_of, pairs_of, parted, role_of, stands};
ghost use Rattle.command_line.specs.Words.{start_of, takes, value_in};

use crate::options::Command;
use lcm_events::Role;
use vnfm_base::Text;

/// Digits that a number has at most.
const MAX_DIGITS: usize = 20;

/// Steps that a trial has at most.
const MAX_COUNT: u32 = 2_000;

/// The command that the words are, where they are one.
///
/// Source: own rule, docs/FORMATS.md, "The program".
pub fn command_of(words: &[Text]) -> Option<Command>
    ensures { result ≡ option_map (λ parts. parts.0) (parted words.now) }
{
    let [name, options @ ..] = words else {
        return None;
    };
    let command = command_named(name)?;
    if are_taken(command, options) && has_needed(command, options) {
        Some(command)
    } else {
        None
    }
}

/// The command of this name.
///
/// Source: own rule, docs/FORMATS.md, "The program".
pub fn command_named(name: &Text) -> Option<Command>
    ensures { result ≡ command_named name.now }
{
    match name.as_str() {
        "init" => Some(Command::Init),
        "onboard" => Some(Command::Onboard),
        "once" => Some(Command::Once),
        "serve" => Some(Command::Serve),
        "check" => Some(Command::Check),
        "migrate" => Some(Command::Migrate),
        "trial" => Some(Command::Trial),
        _ => None,
    }
}

/// Whether the words are pairs of an option and its value, the command takes each, and none stands twice.
fn are_taken(command: Command, words: &[Text]) -> bool
    ensures { result ≡ are_taken command words.now }
{
    let mut rest = words;
    while let [option, value, behind @ ..] = rest {
        if !takes(command, option, value) || stands(option.as_str(), behind) {
            return false;
        }
        rest = behind;
    }
    rest.is_empty()
}

/// Whether each option that has to stand does.
fn has_needed(command: Command, words: &[Text]) -> bool
    ensures { (pairs : List Pair) → pairs_of words.now ≡ Some pairs
        → result ≡ list_all (λ option. stands option pairs) (needed_of command) }
{
    match command {
        Command::Init => stands("--journal", words) && stands("--manager", words),
        Command::Onboard | Command::Once | Command::Check => stands("--journal", words),
        Command::Serve => {
            stands("--journal", words) && stands("--listen", words) && stands("--em-listen", words)
        }
        Command::Migrate => stands("--journal", words) && stands("--to", words),
        Command::Trial => stands("--start", words) && stands("--count", words),
    }
}

/// Whether the option stands among the pairs.
fn stands(name: &str, words: &[Text]) -> bool
    ensures { (pairs : List Pair) → pairs_of words.now ≡ Some pairs → result ≡ stands name.now pairs }
{
    value_of(words, name).is_some()
}

/// The value of an option among the pairs with which the words begin.
///
/// Source: own rule, docs/FORMATS.md, "The program".
pub fn value_of<'a>(words: &'a [Text], name: &str) -> Option<&'a Text>
    ensures { option_map (λ value. value.now) result ≡ value_in name.now words.entry.now }
{
    let mut rest = words;
    while let [option, value, behind @ ..] = rest {
        if option.as_str() == name {
            return Some(value);
        }
        rest = behind;
    }
    None
}

/// Whether the pair is one of the command's options, with a value of its form.
///
/// Source: own rule, docs/FORMATS.md, "The program".
pub fn takes(command: Command, option: &Text, value: &Text) -> bool
    ensures { result ≡ takes command (option.now, value.now) }
{
    has_option(command, option.as_str())
        && !is_option(value.as_bytes())
        && fits(option.as_str(), value.as_str())
}

/// Whether the command has this option.
///
/// Source: own rule, docs/FORMATS.md, "The program".
pub fn has_option(command: Command, option: &str) -> bool
    ensures { result ≡ list_any (λ known. bytes_eq option.now known) (options_of command) }
{
    match command {
        Command::Init => option == "--journal" || option == "--manager",
        Command::Onboard | Command::Check => option == "--journal",
        Command::Once => {
            option == "--journal"
                || option == "--role"
                || option == "--rounds"
                || option == "--orchestrator"
                || option == "--vim"
        }
        Command::Serve => {
            option == "--journal"
                || option == "--listen"
                || option == "--em-listen"
                || option == "--rounds"
                || option == "--orchestrator"
                || option == "--vim"
        }
        Command::Migrate => option == "--journal" || option == "--to",
        Command::Trial => option == "--start" || option == "--count",
    }
}

/// Whether the value has the form of the option's.
fn fits(option: &str, value: &str) -> bool
    ensures { result ≡ fits (option.now, value.now) }
{
    if option == "--manager" || option == "--rounds" {
        number_of(value).is_some()
    } else if option == "--role" {
        role_of(value).is_some()
    } else if option == "--start" {
        start_of(value).is_some()
    } else if option == "--count" {
        count_of(value).is_some()
    } else if option == "--listen" || option == "--em-listen" {
        !value.is_empty()
    } else {
        true
    }
}

fn is_option(word: &[u8]) -> bool
    ensures { result ≡ is_option word.now }
{
    match word {
        [] => false,
        [first, ..] => *first == b'-',
    }
}

/// The role of this name.
pub fn role_of(name: &str) -> Option<Role>
    ensures { result ≡ role_of name.now }
{
    match name {
        "orchestrator" => Some(Role::Orchestrator),
        "em" => Some(Role::Element),
        _ => None,
    }
}

/// The number that a word gives.
pub fn number_of(word: &str) -> Option<u32>
    ensures { result ≡ number_of word.now }
{
    if is_number(word.as_bytes()) {
        word.parse::<u32>().ok()
    } else {
        None
    }
}

/// The number that a trial is drawn from, which a word gives.
pub fn start_of(word: &str) -> Option<u64>
    ensures { result ≡ start_of word.now }
{
    if is_number(word.as_bytes()) {
        word.parse::<u64>().ok()
    } else {
        None
    }
}

/// How many steps of a trial a word gives.
pub fn count_of(word: &str) -> Option<u32>
    ensures { result ≡ count_of word.now }
{
    match number_of(word) {
        Some(number) if number <= MAX_COUNT => Some(number),
        _ => None,
    }
}

fn is_number(word: &[u8]) -> bool
    ensures { result ≡ is_number word.now }
{
    !word.is_empty() && word.len() <= MAX_DIGITS && are_digits(word)
}

fn are_digits(word: &[u8]) -> bool
    ensures { result ≡ list_all is_ascii_digit word.now }
{
    word.iter().all(|byte| byte.is_ascii_digit())
}
