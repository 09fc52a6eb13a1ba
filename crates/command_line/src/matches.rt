//! The values of the options, as `clap` reads them.
ghost use Rattle.std.specs.Prelude.{◌≡◌, [], ◌∷◌, List, IfOk, Some, false, map};
ghost use Rattle.clap.specs.Words.{found_of, new_rule, rule_of};
ghost use Rattle.command_line.specs.Found.{HasValues};
ghost use Rattle.command_line.specs.Words.{Pair, parted};
ghost use Rattle.command_line.specs.declared.options.Command.{Command};

use clap::{Arg, ArgMatches, Error};
use std::alloc::Global;

/// What `clap` finds in words that are a command, of which the first stands for the program's name.
pub fn matches_of<'a>(alloc: Global, words: &'a [&'a str]) -> Result<ArgMatches<'a>, Error>
    ensures { IfOk result (λ m. (command : Command) (pairs : List Pair)
        → parted (map (λ word. word.now) words.entry.now) ≡ Some (command, pairs) → HasValues (found_of m) pairs) }
{
    let all = clap::Command::new(alloc, "vnfm")
        .arg(option(alloc, "journal", ""))?
        .arg(option(alloc, "manager", "0"))?
        .arg(option(alloc, "role", "orchestrator"))?
        .arg(option(alloc, "rounds", ""))?
        .arg(option(alloc, "orchestrator", ""))?
        .arg(option(alloc, "vim", ""))?
        .arg(option(alloc, "to", ""))?
        .arg(option(alloc, "listen", ""))?
        .arg(option(alloc, "em-listen", ""))?
        .arg(option(alloc, "start", "0"))?
        .arg(option(alloc, "count", "0"))?;
    all.try_get_matches_from(words)
}

/// An option of this name, with what it is where it doesn't stand.
fn option<'a>(alloc: Global, name: &'a str, default: &'a str) -> Arg<'a>
    ensures rule { rule_of result ≡ record (new_rule name.entry.now) {
      long = Some name.entry.now;
      defaults =
          default.entry.now ∷ [];
    } }
    ensures local { result.global ≡ false }
{
    Arg::new(alloc, name).long(name).default_value(default)
}
