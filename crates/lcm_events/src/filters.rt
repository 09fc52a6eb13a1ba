//! What a subscription asks to be told.

use crate::asks::OpKind;
use crate::listed::{Listed, Names};
use crate::states::OpState;

/// The kind of a notification.
///
/// Source: SOL 003 5.5.2.17 to 5.5.2.19 (the three notifications).
#[derive(Clone, Copy, PartialEq, Eq)]
pub enum NoticeKind {
    /// An operation occurrence changed.
    Occurrence,
    /// An instance was created.
    Creation,
    /// An instance was deleted.
    Deletion,
}

/// An operation type that a filter may name.
///
/// Source: SOL 003 5.5.3 (LifecycleChangeNotificationsFilter).
#[derive(Clone, Copy)]
pub enum OperationType {
    /// One that an occurrence may have.
    Of(OpKind),
    /// CHANGE_EXT_CONN, which no occurrence has.
    ChangeExtConn,
    /// MODIFY_INFO, which no occurrence has.
    ModifyInfo,
}

/// The filter of a subscription. The values of a list are alternatives, and an empty list asks nothing.
///
/// Source: SOL 003 5.5.3 (LifecycleChangeNotificationsFilter).
pub struct Filter {
    /// The descriptors' identifiers.
    pub vnfds: Names,
    /// The texts of the instances' identifiers.
    pub instances: Names,
    /// The instances' names.
    pub names: Names,
    /// The kinds of notices.
    pub notices: Listed<NoticeKind>,
    /// The operations.
    pub operations: Listed<OperationType>,
    /// The states.
    pub states: Listed<OpState>,
}

impl Drop for Filter {
    // Written out, so that the proof of a caller calls it and doesn't take the filter apart at each of its ends.
    fn drop(self) {
        let Filter {
            vnfds: _,
            instances: _,
            names: _,
            notices: _,
            operations: _,
            states: _,
        } = self;
    }
}
