//! What is kept of the events that a page shows: a story for each instance, with one for each of its operations.

use lcm_events::{CancelMode, OpKind, OpState, Role, Way};
use occ_table::Cause;
use std::alloc::Global;
use vnfm_base::Moment;

/// How an attempt stands.
#[derive(Clone, Copy, PartialEq, Eq)]
pub enum Fate {
    /// It hasn't ended.
    Open,
    /// It was done.
    Done,
    /// It broke, with this code of the infrastructure.
    Broken(u32),
    /// It was aborted by a cancel.
    Aborted,
    /// The infrastructure never got it.
    NotBegun,
    /// The call that was to begin it failed, and it hasn't ended.
    CallFailed,
}

/// An attempt at a change.
#[derive(Drop)]
pub struct Attempt {
    /// The number of its change, from 0.
    pub change: u16,
    /// Its own number among the attempts at this change, from 1.
    pub number: u32,
    /// Whether the change is made or undone.
    pub way: Way,
    /// The change in words.
    pub what: String,
    /// The place of its first event in the journal.
    pub place: u64,
    /// When it began.
    pub begun: Moment,
    /// When the last event about it happened.
    pub ended: Moment,
    /// How it stands.
    pub fate: Fate,
}

/// What happened to an operation besides attempts.
#[derive(Clone, Copy)]
pub enum Stage {
    /// It moved to this state.
    Moved(OpState),
    /// The grant comes later.
    GrantLater,
    /// The orchestrator gave no answer that can be read.
    GrantTrouble,
    /// The grant didn't cover what was asked for.
    GrantNotCovering,
    /// It was granted.
    Granted,
    /// The grant was denied.
    Denied,
    /// A cancel of this mode was asked for.
    CancelAsked(CancelMode),
}

/// What happened to an operation, when, and at which place of the journal.
#[derive(Clone, Copy)]
pub struct Step {
    /// The place of the event in the journal.
    pub place: u64,
    /// When.
    pub moment: Moment,
    /// What.
    pub stage: Stage,
}

/// What is kept of an operation.
pub struct OperationStory {
    /// The number of its occurrence.
    pub occ: u64,
    /// Its kind.
    pub kind: OpKind,
    /// Who asked.
    pub role: Role,
    /// When it was asked for.
    pub asked: Moment,
    /// The state that it is in.
    pub state: OpState,
    /// When it came into it.
    pub entered: Moment,
    /// When the last event about it happened.
    pub last: Moment,
    /// Why its work stopped last.
    pub cause: Option<Cause>,
    /// What happened to it, in order.
    pub steps: Vec<Step>,
    /// Its attempts in the order in which they began.
    pub attempts: Vec<Attempt>,
    /// For each change the place of its latest attempt among the attempts, 0 where it has none.
    pub latest: Vec<usize>,
}

impl Drop for OperationStory {
    // Written out, so that the proof of a caller calls it and doesn't take the story apart at each of its ends.
    fn drop(self) {
        let OperationStory {
            occ: _,
            kind: _,
            role: _,
            asked: _,
            state: _,
            entered: _,
            last: _,
            cause: _,
            steps: _,
            attempts: _,
            latest: _,
        } = self;
    }
}

/// What is kept of an instance.
pub struct InstanceStory {
    /// Its number.
    pub number: u64,
    /// Its name, empty where it has none.
    pub name: String,
    /// The identifier of its descriptor, empty where no event named it.
    pub vnfd: String,
    /// When it was created.
    pub created: Option<Moment>,
    /// When it was deleted.
    pub deleted: Option<Moment>,
    /// Its operations, in order of their numbers.
    pub operations: Vec<OperationStory>,
}

impl Drop for InstanceStory {
    // Written out, so that the proof of a caller calls it and doesn't take the story apart at each of its ends.
    fn drop(self) {
        let InstanceStory {
            number: _,
            name: _,
            vnfd: _,
            created: _,
            deleted: _,
            operations: _,
        } = self;
    }
}

impl InstanceStory {
    /// Nothing is known of it; takes no memory.
    pub fn new(alloc: Global, number: u64) -> InstanceStory {
        InstanceStory {
            number,
            name: String::new(alloc),
            vnfd: String::new(alloc),
            created: None,
            deleted: None,
            operations: Vec::new(alloc),
        }
    }
}
