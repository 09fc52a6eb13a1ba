//! Plays runs over the objects in memory, and tells which of them don't come out as they are to, and why.
//!
//! Each line of standard input is JSON: the heading of a module, `{"module": NAME, "runs": N, "wrong": N, "bytes": N}`,
//! or behind it a text that has a name, `{"text": NAME, "is": TEXT}`, or a run, which is an array of its title and its
//! acts. The heading says how many runs the module has, how many of them are to go wrong, and how many bytes its lines
//! have, with their line feeds.
//!
//! Of a run that goes wrong the title is told and the number of the first act that does, from 1, with its word; where
//! that has acts in it, the stop, the fault or the front, from 0, and the act there; what was wanted and what came,
//! where they differ first; and at how many other stops, faults or fronts it goes wrong. Each module ends with a line
//! of its runs, which says more where it hasn't what its heading says, and all with one of all runs. The status is 1
//! where a module hasn't what its heading says.
#![tactic(auto)]

mod checks;
mod commands;
mod deliveries;
mod levels;
mod lives;
mod modules;
mod objects;
mod peers;
mod playing;
mod preparing;
mod program;
mod recorder;
mod spelling;
mod stage;

use crate::modules::{Extent, Module};
use crate::playing::{Failure, Inner, play_act, word_told};
use crate::stage::Stage;
use anyhow::{Result, bail};
use case_lives::{ActFault, CaseFault, entries, word};
use serde_json::Value;
use std::alloc::{AllocGlobal, Global};
use std::io::{BufRead, BufReader, Input, Print};

/// Plays a run: the number of the act that doesn't go well, from 1, and what goes wrong in it, where there is one.
fn play(
    stage: &mut Stage,
    alloc: Global,
    run: &[Value],
) -> Result<Option<(usize, Failure)>, CaseFault> {
    stage.begin(alloc)?;
    for place in 1..run.len() {
        if let Some(failure) = play_act(stage, alloc, &run[place]) {
            return Ok(Some((place, failure)));
        }
    }
    Ok(None)
}

/// Tells where an act goes wrong that has acts in it.
fn tell_inner(rt: &impl Print, inner: &Inner, others: usize) -> Result<()> {
    println!(rt;
        "  at {}, in act {}, \"{}\"; others: {}",
        inner.place,
        inner.act,
        inner.word.as_str(),
        others
    )?;
    Ok(())
}

/// Tells why an act goes wrong.
fn tell_fault(rt: &impl Print, fault: &ActFault) -> Result<()> {
    match fault {
        ActFault::Differs(it) => {
            println!(rt; "  wanted: {}", it.wanted.as_str())?;
            println!(rt; "  came: {}", it.came.as_str())?;
        }
        ActFault::Unread(fault) => println!(rt; "  an act is {fault}")?,
    }
    Ok(())
}

/// Tells what goes wrong in the act of this number of this run.
fn tell(
    rt: &(impl Print + AllocGlobal),
    title: &str,
    run: &[Value],
    place: usize,
    failure: &Failure,
) -> Result<()> {
    let word = word_told(rt.alloc(), run.get(place).unwrap_or(&Value::Null))?;
    println!(rt; "{title}: act {place}, \"{}\", goes wrong", word.as_str())?;
    if let Some(inner) = &failure.inner {
        tell_inner(rt, inner, failure.others)?;
    }
    tell_fault(rt, &failure.fault)
}

/// Plays a run, tells what goes wrong in it, and says whether it goes well.
fn goes_well(rt: &(impl Print + AllocGlobal), stage: &mut Stage, run: &[Value]) -> Result<bool> {
    let Ok(title) = word(run, 0) else {
        bail!("a run begins with its title");
    };
    match play(stage, rt.alloc(), run) {
        Ok(None) => return Ok(true),
        Ok(Some((place, failure))) => tell(rt, title, run, place, &failure)?,
        Err(fault) => println!(rt; "{title}: an act is {fault}")?,
    }
    Ok(false)
}

/// What is played, and how much of it was.
struct Player {
    stage: Stage,
    module: Option<Module>,
    all: Extent,
    is_whole: bool,
}

impl Drop for Player {
    // Written out, so that the proof of a caller calls it and doesn't take the value apart at each of its ends.
    fn drop(self) {
        let Player {
            stage: _,
            module: _,
            all: _,
            is_whole: _,
        } = self;
    }
}

impl Player {
    /// Nothing was played.
    fn new(alloc: Global) -> Result<Player> {
        Ok(Player {
            stage: Stage::new(alloc)?,
            module: None,
            all: Extent::none(),
            is_whole: true,
        })
    }

    /// Ends the module at hand, and tells its runs.
    fn end_module(&mut self, rt: &(impl Print + AllocGlobal)) -> Result<()> {
        if let Some(module) = &self.module {
            println!(rt; "{}", module.line(rt.alloc())?.as_str())?;
            self.is_whole = self.is_whole && module.is_whole();
        }
        Ok(())
    }

    /// Begins the module of this name.
    fn begin_module(
        &mut self,
        rt: &(impl Print + AllocGlobal),
        name: &str,
        heading: &Value,
    ) -> Result<()> {
        self.end_module(rt)?;
        self.module = Some(Module::new(rt.alloc(), name, heading)?);
        Ok(())
    }

    /// Takes a line of so many bytes into the module at hand.
    fn take_line(&mut self, bytes: usize) -> Result<()> {
        let Some(module) = &mut self.module else {
            bail!("no heading of a module stands before its lines");
        };
        module.came.put_line(bytes);
        Ok(())
    }

    /// Plays a run of a line.
    fn take_run(&mut self, rt: &(impl Print + AllocGlobal), run: &[Value]) -> Result<()> {
        let is_well = goes_well(rt, &mut self.stage, run)?;
        self.all.put_run(is_well);
        if let Some(module) = &mut self.module {
            module.came.put_run(is_well);
        }
        Ok(())
    }

    /// Takes the text of this name of a line.
    fn take_text(&mut self, alloc: Global, name: &str, line: &Value) -> Result<()> {
        let Some(value) = line.get("is") else {
            bail!("a text is what it is");
        };
        let Ok(text) = self.stage.names.text(alloc, value) else {
            bail!("a text is spelled as one");
        };
        self.stage.names.put(alloc, name, text)?;
        Ok(())
    }

    /// Takes a line that is no run, of so many bytes.
    fn take_object(
        &mut self,
        rt: &(impl Print + AllocGlobal),
        line: &Value,
        bytes: usize,
    ) -> Result<()> {
        if let Some(name) = member(line, "module") {
            return self.begin_module(rt, name, line);
        }
        let Some(name) = member(line, "text") else {
            bail!("a line is a heading, a text or a run");
        };
        self.take_line(bytes)?;
        self.take_text(rt.alloc(), name, line)
    }

    /// Takes a line of standard input.
    fn take(&mut self, rt: &(impl Print + AllocGlobal), line: &str) -> Result<()> {
        let Ok(value) = Value::from_slice(rt.alloc(), line.as_bytes()) else {
            bail!("a line is no JSON");
        };
        match entries(&value) {
            Ok(run) => {
                self.take_line(line.len())?;
                self.take_run(rt, run)
            }
            Err(_) => self.take_object(rt, &value, line.len()),
        }
    }

    /// Ends all: how many runs there were.
    fn end(&mut self, rt: &(impl Print + AllocGlobal)) -> Result<()> {
        self.end_module(rt)?;
        println!(rt; "{} runs, {} wrong", self.all.runs, self.all.wrong)?;
        if !self.is_whole {
            bail!("a module hasn't what its heading says");
        }
        Ok(())
    }
}

/// The text of this member.
fn member<'a>(line: &'a Value, name: &str) -> Option<&'a str> {
    line.get(name)?.as_str()
}

/// Plays the runs on standard input.
fn run(rt: &(impl Input + Print + AllocGlobal)) -> Result<()> {
    let mut player = Player::new(rt.alloc())?;
    for line in BufReader::new(rt.alloc(), rt.reader())?.lines(rt.alloc()) {
        player.take(rt, &line?)?;
    }
    player.end(rt)
}

fn main(rt: HostRuntime) -> Result<()> {
    run(&rt)
}
