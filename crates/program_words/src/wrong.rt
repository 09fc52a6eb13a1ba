//! Which word isn't understood.
ghost use Rattle.std.specs.Prelude.{◌≡◌, ◌≤◌, drop, length, take};
ghost use Rattle.program_words.specs.Wrong.{is_among, is_new, misplaced, needs_addresses, needs_draw, needs_journal};
ghost use Rattle.program_words.specs.Wrong.{needs_manager, needs_to, wrong_addresses, wrong_at_end, wrong_behind};
ghost use Rattle.program_words.specs.Wrong.{wrong_draw, wrong_of};

use command_line::{Command, command_named, has_option, takes};
use vnfm_base::Text;

/// What is wrong first with words that are no command.
#[derive(Clone, Copy)]
pub enum Wrong {
    /// The word at this place, from 0, isn't understood there.
    Word(usize),
    /// The option at this place, from 0, stands before it too.
    Twice(usize),
    /// There is no command.
    NoCommand,
    /// The option at this place, from 0, has no value.
    NoValue(usize),
    /// The option at this place, from 0, doesn't take the value behind it.
    Value(usize),
    /// `--journal` and a path are missing.
    NoJournal,
    /// `--manager` and a number are missing.
    NoManager,
    /// `--to` and a path are missing.
    NoTo,
    /// `--listen` and an address are missing.
    NoListen,
    /// `--em-listen` and an address are missing.
    NoEmListen,
    /// `--start` and a number are missing.
    NoStart,
    /// `--count` and a number are missing.
    NoCount,
    /// Nothing: of words that are no command there is always something else.
    Nothing,
}

/// What is wrong first with these words, which are no command.
///
/// Source: own rule, docs/FORMATS.md, "The program".
pub fn wrong_of(words: &[Text]) -> Wrong
    ensures { result ≡ wrong_of words.now }
{
    let [name, ..] = words else {
        return Wrong::NoCommand;
    };
    match command_named(name) {
        Some(command) => wrong_behind(command, words),
        None => Wrong::Word(0),
    }
}

/// What is wrong first behind a command's name, which is the first word.
fn wrong_behind(command: Command, words: &[Text]) -> Wrong
    requires { 1 ≤ length words.now }
    ensures { result ≡ wrong_behind command (take 1 words.now) (drop 1 words.now) }
{
    let mut at = 1;
    while let [option, value, ..] = &words[at..] {
        if !is_new(command, &words[..at], option) {
            return misplaced(command, &words[..at], option);
        }
        if !takes(command, option, value) {
            return Wrong::Value(at);
        }
        at += 2;
    }
    match &words[at..] {
        [] => wrong_at_end(command, words),
        [option, ..] => {
            if is_new(command, &words[..at], option) {
                Wrong::NoValue(at)
            } else {
                misplaced(command, &words[..at], option)
            }
        }
    }
}

/// What is wrong where the words end.
fn wrong_at_end(command: Command, words: &[Text]) -> Wrong
    ensures { result ≡ wrong_at_end command words.now }
{
    if needs_journal(command) && !is_among(words, "--journal") {
        return Wrong::NoJournal;
    }
    if needs_manager(command) && !is_among(words, "--manager") {
        return Wrong::NoManager;
    }
    if needs_to(command) && !is_among(words, "--to") {
        return Wrong::NoTo;
    }
    if needs_addresses(command) {
        return wrong_addresses(words);
    }
    if needs_draw(command) {
        return wrong_draw(words);
    }
    Wrong::Nothing
}

/// What is wrong where the words of a command that has to have two addresses end.
fn wrong_addresses(words: &[Text]) -> Wrong
    ensures { result ≡ wrong_addresses words.now }
{
    if !is_among(words, "--listen") {
        return Wrong::NoListen;
    }
    if !is_among(words, "--em-listen") {
        return Wrong::NoEmListen;
    }
    Wrong::Nothing
}

/// What is wrong where the words of a command that has to have a start and a count end.
fn wrong_draw(words: &[Text]) -> Wrong
    ensures { result ≡ wrong_draw words.now }
{
    if !is_among(words, "--start") {
        return Wrong::NoStart;
    }
    if !is_among(words, "--count") {
        return Wrong::NoCount;
    }
    Wrong::Nothing
}

/// Whether the command has to have a journal's path.
fn needs_journal(command: Command) -> bool
    ensures { result ≡ needs_journal command }
{
    match command {
        Command::Trial => false,
        Command::Init
        | Command::Onboard
        | Command::Once
        | Command::Serve
        | Command::Check
        | Command::Migrate => true,
    }
}

/// Whether the command has to have a manager's number.
fn needs_manager(command: Command) -> bool
    ensures { result ≡ needs_manager command }
{
    match command {
        Command::Init => true,
        Command::Onboard
        | Command::Once
        | Command::Serve
        | Command::Check
        | Command::Migrate
        | Command::Trial => false,
    }
}

/// Whether the command has to have a path that the journal goes to.
fn needs_to(command: Command) -> bool
    ensures { result ≡ needs_to command }
{
    match command {
        Command::Migrate => true,
        Command::Init
        | Command::Onboard
        | Command::Once
        | Command::Serve
        | Command::Check
        | Command::Trial => false,
    }
}

/// Whether the command has to have two addresses.
fn needs_addresses(command: Command) -> bool
    ensures { result ≡ needs_addresses command }
{
    match command {
        Command::Serve => true,
        Command::Init
        | Command::Onboard
        | Command::Once
        | Command::Check
        | Command::Migrate
        | Command::Trial => false,
    }
}

/// Whether the command has to have a start and a count.
fn needs_draw(command: Command) -> bool
    ensures { result ≡ needs_draw command }
{
    match command {
        Command::Trial => true,
        Command::Init
        | Command::Onboard
        | Command::Once
        | Command::Serve
        | Command::Check
        | Command::Migrate => false,
    }
}

/// Whether the word is an option of the command that doesn't stand before.
fn is_new(command: Command, before: &[Text], word: &Text) -> bool
    ensures { result ≡ is_new command before.now word.now }
{
    has_option(command, word.as_str()) && !is_among(before, word.as_str())
}

/// What is wrong with a word that is no new option behind these.
fn misplaced(command: Command, before: &[Text], word: &Text) -> Wrong
    ensures { result ≡ misplaced command before.now word.now }
{
    if has_option(command, word.as_str()) {
        Wrong::Twice(before.len())
    } else {
        Wrong::Word(before.len())
    }
}

/// Whether the word is among these.
fn is_among(words: &[Text], word: &str) -> bool
    ensures { result ≡ is_among words.now word.now }
{
    for other in words {
        if word == other.as_str() {
            return true;
        }
    }
    false
}
