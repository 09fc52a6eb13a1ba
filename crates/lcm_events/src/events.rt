//! The events of the journal.

ghost use Rattle.std.specs.Prelude.{◌≡◌};

use crate::asks::Ask;
use crate::attempts::{Outcome, Tag};
use crate::changes::Changes;
use crate::descriptor::Vnfd;
use crate::filters::Filter;
use crate::listed::Listed;
use crate::places::Place;
use crate::states::{CancelMode, OpState, Role};
use vnfm_base::{Line, Moment, Name};

/// An operation that was asked for, with its plan.
#[derive(Drop)]
pub struct Operation {
    /// The number of the occurrence, from 1.
    pub occ: u64,
    /// The number of its instance.
    pub instance: u64,
    /// Who asked.
    pub role: Role,
    /// What was asked for.
    pub ask: Ask,
    /// The changes in the order of the plan.
    pub changes: Changes,
}

/// An answer to a grant request that is no grant.
#[derive(Drop)]
pub enum GrantTry {
    /// It comes later, at this location.
    Later(Line),
    /// No answer that can be read.
    Trouble,
    /// A grant that doesn't cover the request.
    NotCovering,
}

/// How the post of a notice ended.
#[derive(Clone, Copy)]
pub enum PostOutcome {
    /// The receiver took it.
    Delivered,
    /// It didn't.
    NotTaken,
}

/// What happened.
pub enum EventKind {
    /// A descriptor was onboarded.
    Onboarded(Vnfd),
    /// An instance was created.
    Created {
        /// Its number, from 1.
        instance: u64,
        /// The identifier of its descriptor.
        vnfd: Name,
        /// The name that the request gave.
        name: Option<Name>,
        /// The description that the request gave.
        text: Option<Line>,
    },
    /// An instance was deleted.
    Deleted {
        /// Its number.
        instance: u64,
    },
    /// An operation was asked for.
    Asked(Operation),
    /// A grant request didn't lead to a grant.
    GrantTried {
        /// The number of the occurrence.
        occ: u64,
        /// What came of it.
        answer: GrantTry,
    },
    /// The operation was granted.
    Granted {
        /// The number of the occurrence.
        occ: u64,
        /// The grant's identifier.
        grant: Name,
        /// The distinct places, in the order of the first change that has them.
        places: Listed<Place>,
        /// The number of the place of each change.
        spots: Listed<u8>,
    },
    /// The operation was denied.
    Denied {
        /// The number of the occurrence.
        occ: u64,
    },
    /// An attempt is about to begin.
    Intent(Tag),
    /// The call that was to begin the attempt failed.
    CallFailed(Tag),
    /// An attempt ended.
    Settled {
        /// The attempt.
        tag: Tag,
        /// How it ended.
        outcome: Outcome,
    },
    /// An occurrence moved to a state.
    Moved {
        /// The number of the occurrence.
        occ: u64,
        /// The new state.
        to: OpState,
    },
    /// A cancel was asked for.
    CancelAsked {
        /// The number of the occurrence.
        occ: u64,
        /// How.
        mode: CancelMode,
    },
    /// A subscription was made.
    Subscribed {
        /// Its number, from 1.
        subscription: u64,
        /// Whose it is.
        role: Role,
        /// Where its notices go.
        callback: Line,
        /// What it asks to be told.
        filter: Filter,
    },
    /// A subscription was ended.
    Unsubscribed {
        /// Its number.
        subscription: u64,
    },
    /// A notice was posted.
    Posted {
        /// The number of the subscription.
        subscription: u64,
        /// The place of the notice's event in the journal, from 1.
        place: u64,
        /// How it went.
        outcome: PostOutcome,
    },
}

impl Drop for EventKind {
    // Written out, so that the proof of a caller calls it and doesn't take the event apart at each of its ends.
    fn drop(self) {
        match self {
            EventKind::Onboarded(_) => {}
            EventKind::Created {
                instance: _,
                vnfd: _,
                name: _,
                text: _,
            } => {}
            EventKind::Deleted { instance: _ } => {}
            EventKind::Asked(_) => {}
            EventKind::GrantTried { occ: _, answer: _ } => {}
            EventKind::Granted {
                occ: _,
                grant: _,
                places: _,
                spots: _,
            } => {}
            EventKind::Denied { occ: _ } => {}
            EventKind::Intent(_) => {}
            EventKind::CallFailed(_) => {}
            EventKind::Settled { tag: _, outcome: _ } => {}
            EventKind::Moved { occ: _, to: _ } => {}
            EventKind::CancelAsked { occ: _, mode: _ } => {}
            EventKind::Subscribed {
                subscription: _,
                role: _,
                callback: _,
                filter: _,
            } => {}
            EventKind::Unsubscribed { subscription: _ } => {}
            EventKind::Posted {
                subscription: _,
                place: _,
                outcome: _,
            } => {}
        }
    }
}

/// An event of the journal: what happened, and when.
#[derive(Drop)]
pub struct Event {
    /// When, as the clock said.
    pub moment: Moment,
    /// What.
    pub kind: EventKind,
}

impl Event {
    /// When the event happened.
    pub fn moment(&self) -> Moment
        ensures { result ≡ self.now.moment }
    {
        self.moment
    }
}
