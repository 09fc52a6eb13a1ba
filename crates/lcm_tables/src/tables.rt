//! All tables of a history, which follow it event by event.

ghost use Rattle.std.specs.Prelude.{[], ◌≡◌, OnOk};
ghost use Rattle.lcm_tables.specs.Tables.{Applies, AreTablesOf, HasRoom, StandForSame};

use instance_table::InstanceTable;
use lcm_events::Event;
use notice_table::NoticeTable;
use occ_table::OccTable;
use std::alloc::{AllocError, Global};
use subscription_filter::NoticeFacts;

/// The tables of a manager's history.

pub struct Tables {
    /// The number of the manager.
    pub manager: u32,
    /// Descriptors, live instances and live subscriptions.
    pub instances: InstanceTable,
    /// Occurrences.
    pub occurrences: OccTable,
    /// The notices that wait for each live subscription.
    pub notices: NoticeTable,
    notice: Option<NoticeFacts>,
}

impl Drop for Tables {
    // Written out, so that the proof of a caller calls it and doesn't take the table apart at each of its ends.
    fn drop(self) {
        let Tables {
            manager: _,
            instances: _,
            occurrences: _,
            notices: _,
            notice: _,
        } = self;
    }
}

impl Tables {
    /// The tables of no event, which take no memory until something is reserved.
    pub fn new(alloc: Global, manager: u32) -> Self
        ensures { AreTablesOf manager result [] }
    {
        Tables {
            manager,
            instances: InstanceTable::new(alloc),
            occurrences: OccTable::new(alloc),
            notices: NoticeTable::new(alloc),
            notice: None,
        }
    }

    /// Reserves the memory that an event needs in all tables, so that `apply` takes none, and lays the notice aside
    /// that it makes. The rows stay, also after an error.
    ///
    /// Source: own rule.
    pub fn reserve_for(&mut self, alloc: Global, e: &Event) -> Result<(), AllocError>
        ensures kept { StandForSame self.old self.new }
        ensures back { StandForSame self.new self.old }
        ensures room { OnOk result (HasRoom e.now self.new) }
    {
        self.notice = self.notice_of(&e.kind);
        self.instances.reserve_for(alloc, e)?;
        self.occurrences.reserve_for(alloc, e)?;
        self.notices.reserve_for(alloc, e, self.notice.as_ref())
    }

    /// Lets all tables follow an event, from what is reserved for it: no memory is taken.
    ///
    /// Source: own rule.
    pub fn apply(&mut self, e: &Event)
        requires room { HasRoom e.now self.old }
        ensures applies { Applies e.now self.old self.new }
        ensures laid { self.new.notice ≡ self.old.notice }
    {
        let place = self.instances.events().saturating_add(1);
        self.notices.apply(e, place, self.notice.as_ref());
        self.instances.apply(e);
        self.occurrences.apply(e);
    }
}
