//! The modules that stored runs come from: what the heading of each says it has, and what came of it.

use serde_json::Value;
use std::alloc::{AllocError, Global};

/// How much a module has.
#[derive(Clone, Copy, PartialEq)]
pub struct Extent {
    /// Its runs.
    pub runs: u64,
    /// How many of them go wrong.
    pub wrong: u64,
    /// The bytes of its lines, with their line feeds.
    pub bytes: u64,
}

impl Extent {
    /// Nothing.
    pub fn none() -> Extent {
        Extent {
            runs: 0,
            wrong: 0,
            bytes: 0,
        }
    }

    /// A line of so many bytes more, without its line feed.
    pub fn put_line(&mut self, bytes: usize) {
        self.bytes = self.bytes.saturating_add(bytes as u64).saturating_add(1);
    }

    /// A run more, which goes well or doesn't.
    pub fn put_run(&mut self, is_well: bool) {
        self.runs = self.runs.saturating_add(1);
        self.wrong = self.wrong.saturating_add(u64::from(!is_well));
    }
}

/// A module of runs.
pub struct Module {
    /// Its name.
    name: String,
    /// How much it is to have.
    said: Extent,
    /// How much came of it.
    pub came: Extent,
}

impl Drop for Module {
    // Written out, so that the proof of a caller calls it and doesn't take the value apart at each of its ends.
    fn drop(self) {
        let Module {
            name: _,
            said: _,
            came: _,
        } = self;
    }
}

/// The number of this member; none is 0.
fn member(heading: &Value, name: &str) -> u64 {
    match heading.get(name) {
        Some(value) => value.as_u64().unwrap_or(0),
        None => 0,
    }
}

impl Module {
    /// The module of this name, by its heading.
    pub fn new(alloc: Global, name: &str, heading: &Value) -> Result<Module, AllocError> {
        Ok(Module {
            name: String::from_str(alloc, name)?,
            said: Extent {
                runs: member(heading, "runs"),
                wrong: member(heading, "wrong"),
                bytes: member(heading, "bytes"),
            },
            came: Extent::none(),
        })
    }

    /// Whether as much came of it as its heading says.
    pub fn is_whole(&self) -> bool {
        self.came == self.said
    }

    /// How many runs it has and how many go wrong; where it hasn't what its heading says, both with their bytes.
    pub fn line(&self, alloc: Global) -> Result<String, AllocError> {
        let (name, came, said) = (self.name.as_str(), self.came, self.said);
        if self.is_whole() {
            return format!(in alloc; "{name}: {} runs, {} wrong", came.runs, came.wrong);
        }
        let (came, said) = (extent_text(alloc, came)?, extent_text(alloc, said)?);
        format!(in alloc; "{name}: {came}; its heading has {said}")
    }
}

/// How much there is.
fn extent_text(alloc: Global, extent: Extent) -> Result<String, AllocError> {
    let (runs, wrong, bytes) = (extent.runs, extent.wrong, extent.bytes);
    format!(in alloc; "{runs} runs of {bytes} bytes, {wrong} wrong")
}
