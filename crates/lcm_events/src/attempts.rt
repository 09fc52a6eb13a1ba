//! Attempts at a change: their tags and how they end.

use vnfm_base::Name;

/// Whether an attempt makes its change or undoes it.
#[derive(Clone, Copy, PartialEq, Eq)]
pub enum Way {
    /// The change is made.
    Forward,
    /// The change is undone.
    Undo,
}

/// The name of one attempt: change `change`, from 0, of occurrence `occ`.
#[derive(Clone, Copy, PartialEq, Eq)]
pub struct Tag {
    /// The number of the occurrence, from 1.
    pub occ: u64,
    /// The place of the change in the plan, from 0.
    pub change: u16,
    /// The number of the attempt at this change, from 1 over both ways.
    pub attempt: u32,
    /// Making or undoing.
    pub way: Way,
}

/// How an attempt ended.
#[derive(Clone, Copy)]
pub enum Outcome {
    /// Done, and the resource's name.
    Done(Name),
    /// Broken with this code of the infrastructure.
    Broken(u32),
    /// Aborted by a forceful cancel.
    Aborted,
    /// The infrastructure never got it.
    NotBegun,
}
