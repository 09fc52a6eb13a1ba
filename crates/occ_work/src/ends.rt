//! How an act ends, and how those of a turn did.
ghost use Rattle.std.specs.Prelude.{◌<◌, ◌∷◌, List, length};
ghost use Rattle.occ_work.specs.Counting.{CountsEndings};

/// How an act ended.
///
/// Source: own rule.
#[derive(Clone, Copy)]
pub enum Acted {
    /// What it did is in the journal.
    Recorded,
    /// The outside answered that it isn't done yet, and nothing was recorded: the grant comes later still, or the job
    /// goes on.
    Waiting,
    /// A look failed, so that nothing is known of the job, and nothing was recorded. It is looked at again by the next
    /// act.
    Unreached,
}

/// How the acts of a turn ended.
///
/// Source: own rule.
#[derive(Clone, Copy, PartialEq, Eq)]
pub struct Turn {
    /// How many acts were recorded.
    pub acted: u32,
    /// How many wait.
    pub waiting: u32,
    /// How many reached nobody.
    pub unreached: u32,
}

impl Turn {
    /// Counts how one act more ended, as far as a count goes.
    pub fn count(&mut self, done: Acted)
        ensures { (ends : List Acted) → length ends < 4294967295 → CountsEndings self.old ends
            → CountsEndings self.new (done ∷ ends) }
    {
        match done {
            Acted::Recorded => self.acted = self.acted.saturating_add(1),
            Acted::Waiting => self.waiting = self.waiting.saturating_add(1),
            Acted::Unreached => self.unreached = self.unreached.saturating_add(1),
        }
    }
}
