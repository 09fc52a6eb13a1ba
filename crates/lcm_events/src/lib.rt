//! The plain types of the VNF lifecycle: descriptors, operations, events and what stands of an instance.
#![tactic(auto)]

mod acts;
mod asks;
mod attempts;
mod changes;
mod descriptor;
mod events;
mod filters;
mod held;
mod listed;
mod places;
mod states;

pub use acts::Act;
pub use asks::{Aim, Ask, AspectLevel, OpKind, ScaleWay, StopType, Vnfc};
pub use attempts::{Outcome, Tag, Way};
pub use changes::{Change, Changes, Def, DefKind, Verb};
pub use descriptor::{Aspect, Level, Levels, Port, Row, Storage, Vdu, Vnfd};
pub use events::{Event, EventKind, GrantTry, Operation, PostOutcome};
pub use filters::{Filter, NoticeKind, OperationType};
pub use held::{Held, Holding};
pub use listed::{Listed, Names};
pub use places::Place;
pub use states::{CancelMode, OpState, Role, Task};
