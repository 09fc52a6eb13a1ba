//! The table: a queue for each live subscription, in the order of their numbers. The places that wait stand once, for
//! all queues.

ghost use Rattle.std.specs.Prelude.{IfSome, IsOk, OnOk, Some, None, ℕ, [], false, find, map, option_and_then};
ghost use Rattle.std.specs.Prelude.{option_copied, ◌++◌, ◌<◌, ◌==◌, ◌∷◌, ◌≡◌, ◌≤◌};
ghost use Rattle.instance_table.specs.Steps.{Rises};
ghost use Rattle.lcm_model.specs.Words.{first};
ghost use Rattle.notice_table.specs.Queues.{Queue, StandsFor};
ghost use Rattle.notice_table.specs.Steps.{changed, first_queue, posted, without};
ghost use Rattle.notice_table.specs.Table.{Applies, FindsFirst, HasPlaces, HasRoom, HasRoomForNotice, HasRoomForQueue};
ghost use Rattle.notice_table.specs.Table.{IsKept, Judges, heard_of, makes_queue};
ghost use Rattle.vnfm_base.specs.Ident.{IsIdentNumber};

use crate::queues::{QueueRow, ask_all, post_in, put_place, queue_in, remove, reserve_all};
use lcm_events::{Event, EventKind, Filter, PostOutcome};
use std::alloc::{AllocError, Global};
use std::collections::VecDeque;
use std::marker::Model;
use subscription_filter::NoticeFacts;

/// The notices that wait for each live subscription: their places in the journal, each once, and for each subscription
/// a mark for each of the last of them.
///
/// A contract sees for each subscription the queue of its places, and beside the queues what is reserved for an event.

pub struct NoticeTable {
    /// The places, the oldest first. When a notice is heard, those that no queue waits for any more are dropped from
    /// the front.
    places: VecDeque<u64>,
    queues: Vec<QueueRow>,
    next: Option<QueueRow>,
}

impl Drop for NoticeTable {
    // Written out, so that the proof of a caller calls it and doesn't take the table apart at each of its ends.
    fn drop(self) {
        let NoticeTable {
            places: _,
            queues: _,
            next: _,
        } = self;
    }
}

impl Model for NoticeTable {
    ghost use Rattle.std.specs.Prelude.{[], ◌-◌, map, option_map, vec_len, vec_capacity};
    ghost use Rattle.std.specs.VecDeque.{deque_capacity, deque_len};
    ghost use Rattle.notice_table.specs.Rows.{plain, room, row};
    ghost use Rattle.notice_table.specs.Table.{Shown};

    ghost Value = { Shown };

    ghost use Rattle.notice_table.specs.Holding.{IsHeld};

    ghost view = { λ t. record {
      queues = map (plain t.places.items) (map row t.queues.items);
      ahead =
          deque_capacity t.places - deque_len t.places;
      rooms = map room t.queues.items;
      spare =
          vec_capacity t.queues - vec_len t.queues;
      next = option_map (λ r. plain [] (row r)) t.next;
    } };

    ghost invariant = { IsHeld };
}

impl NoticeTable {
    /// A table with no queue, which takes no memory until something is reserved.
    pub fn new(alloc: Global) -> Self
        ensures queues { (m : ℕ) → StandsFor m result.queues [] }
        ensures next { result.next ≡ None }
    {
        NoticeTable {
            places: VecDeque::new(alloc),
            queues: Vec::new(alloc),
            next: None,
        }
    }

    /// Reserves room for one more notice.
    fn reserve_places(&mut self) -> Result<(), AllocError>
        ensures kept { self.new.queues ≡ self.old.queues }
        ensures room { OnOk result (HasPlaces self.new) }
    {
        self.places.reserve(1)?;
        reserve_all(self.queues.as_mut_slice())
    }

    /// Reserves room for one more notice, where there is one.
    fn reserve_notice(&mut self, notice: Option<&NoticeFacts>) -> Result<(), AllocError>
        ensures kept { self.new.queues ≡ self.old.queues }
        ensures room { OnOk result (HasRoomForNotice (option_copied notice.entry) self.new) }
        ensures free { option_copied notice.entry ≡ None → IsOk result }
        ensures stays { option_copied notice.entry ≡ None → self.new ≡ self.old }
    {
        match notice {
            Some(_) => self.reserve_places(),
            None => Ok(()),
        }
    }

    /// Lays the queue of a subscription aside, and reserves a place for it.
    fn reserve_queue(
        &mut self,
        alloc: Global,
        number: u64,
        filter: &Filter,
    ) -> Result<(), AllocError>
        ensures kept { self.new.queues ≡ self.old.queues }
        ensures ahead { self.new.ahead ≡ self.old.ahead }
        ensures rooms { self.new.rooms ≡ self.old.rooms }
        ensures laid { OnOk result (self.new.next ≡ Some (first_queue number filter.now)) }
        ensures spare { OnOk result (0 < self.new.spare) }
    {
        self.queues.reserve(1)?;
        let queue = QueueRow::new(alloc, number, filter)?;
        self.next = Some(queue);
        Ok(())
    }

    /// Reserves the queue that an event makes, where it makes one.
    fn reserve_kind(&mut self, alloc: Global, kind: &EventKind) -> Result<(), AllocError>
        ensures kept { self.new.queues ≡ self.old.queues }
        ensures ahead { self.new.ahead ≡ self.old.ahead }
        ensures rooms { self.new.rooms ≡ self.old.rooms }
        ensures room { OnOk result (HasRoomForQueue kind.now self.new) }
        ensures free { makes_queue kind.now ≡ false → IsOk result }
        ensures stays { makes_queue kind.now ≡ false → self.new ≡ self.old }
    {
        match kind {
            EventKind::Subscribed {
                subscription,
                filter,
                ..
            } => self.reserve_queue(alloc, *subscription, filter),
            _ => Ok(()),
        }
    }

    /// Reserves the memory that an event with this notice needs, so that `apply` takes none: the queue of a
    /// subscription that is made, and room for the notice's place and for a mark of it in each queue. The queues stay,
    /// also after an error, which comes for want of memory alone, and never where the event makes no subscription and
    /// has no notice.
    ///
    /// Source: own rule.
    pub fn reserve_for(
        &mut self,
        alloc: Global,
        e: &Event,
        notice: Option<&NoticeFacts>,
    ) -> Result<(), AllocError>
        ensures kept { self.new.queues ≡ self.old.queues }
        ensures room { OnOk result (HasRoom e.now.kind (option_copied notice.entry) self.new) }
        ensures free { makes_queue e.now.kind ≡ false → option_copied notice.entry ≡ None → IsOk result }
        ensures stays { makes_queue e.now.kind ≡ false → option_copied notice.entry ≡ None → self.new ≡ self.old }
    {
        self.reserve_notice(notice)?;
        self.reserve_kind(alloc, &e.kind)
    }

    /// The notice waits in each queue whose filter lets it through.
    fn put_notice(&mut self, place: u64, notice: &NoticeFacts)
        requires identified { IsIdentNumber notice.now.instance }
        requires room { HasPlaces self.old }
        ensures queues { self.new.queues ≡ heard_of place (Some notice.now) self.old.queues }
        ensures next { self.new.next ≡ self.old.next }
        ensures spare { self.new.spare ≡ self.old.spare }
    {
        let queues = self.queues.as_mut_slice();
        if ask_all(queues, notice) {
            put_place(&mut self.places, queues, place);
        }
    }

    /// The event's notice waits in each queue whose filter lets it through, where there is one.
    fn hear(&mut self, place: u64, notice: Option<&NoticeFacts>)
        requires room { HasRoomForNotice (option_copied notice) self.old }
        requires identified { IfSome (option_copied notice) (λ n. IsIdentNumber n.instance) }
        ensures queues { self.new.queues ≡ heard_of place (option_copied notice.entry) self.old.queues }
        ensures next { self.new.next ≡ self.old.next }
        ensures spare { self.new.spare ≡ self.old.spare }
        ensures stays { option_copied notice.entry ≡ None → self.new ≡ self.old }
    {
        match notice {
            Some(notice) => self.put_notice(place, notice),
            None => {}
        }
    }

    /// Puts the queue that was laid aside last.
    fn put_queue(&mut self)
        requires spare { 0 < self.old.spare }
        ensures queues { (q : Queue) → self.old.next ≡ Some q → self.new.queues ≡ self.old.queues ++ q ∷ [] }
    {
        if let Some(queue) = self.next.take() {
            self.queues.push_reserved(queue);
        }
    }

    /// Takes the queue of this number out.
    fn remove(&mut self, number: u64)
        ensures queues { self.new.queues ≡ without number self.old.queues }
        ensures reserved { IsKept self.old self.new }
    {
        remove(&mut self.queues, number);
    }

    /// Lets the queue of this number follow a post.
    fn post(&mut self, number: u64, outcome: PostOutcome)
        ensures queues { Rises (λ q. q.number) self.old.queues
            → self.new.queues ≡ map (posted number outcome) self.old.queues }
        ensures reserved { IsKept self.old self.new }
    {
        post_in(&mut self.queues, number, outcome);
    }

    /// Lets the queues follow an event, but for its own notice.
    fn follow(&mut self, kind: &EventKind)
        requires room { HasRoomForQueue kind.now self.old }
        ensures queues { Rises (λ q. q.number) self.old.queues → self.new.queues ≡ changed kind.now self.old.queues }
        ensures stays { makes_queue kind.now ≡ false → IsKept self.old self.new }
    {
        match kind {
            EventKind::Subscribed { .. } => self.put_queue(),
            EventKind::Unsubscribed { subscription } => self.remove(*subscription),
            EventKind::Posted {
                subscription,
                outcome,
                ..
            } => self.post(*subscription, *outcome),
            _ => {}
        }
    }

    /// Lets the queues follow the event at this place with its notice, from what is reserved for it: no memory is
    /// taken.
    ///
    /// Condition: the number of the notice's instance is from 1 to 2^62 - 1.
    /// Source: own rule.
    pub fn apply(&mut self, e: &Event, place: u64, notice: Option<&NoticeFacts>)
        requires room { HasRoom e.now.kind (option_copied notice) self.old }
        requires identified { IfSome (option_copied notice) (λ n. IsIdentNumber n.instance) }
        ensures applies { Applies e.now place (option_copied notice.entry) self.old.queues self.new.queues }
        ensures stays { makes_queue e.now.kind ≡ false → option_copied notice.entry ≡ None → IsKept self.old self.new }
    {
        self.hear(place, notice);
        self.follow(&e.kind);
    }

    /// The place of the first notice that waits for the subscription of this number; none where it isn't live, and
    /// where none waits.
    ///
    /// Source: SOL 003 5.4.20 (Notification endpoint).
    pub fn first(&self, subscription: u64) -> Option<u64>
        ensures finds { FindsFirst subscription result self.now.queues }
    {
        self.first_of(subscription)
    }

    /// The place of the first notice that waits for the subscription of this number, where the numbers rise.
    fn first_of(&self, subscription: u64) -> Option<u64>
        ensures { Rises (λ q. q.number) self.now.queues → result
            ≡ option_and_then (λ q. first q.waiting) (find (λ q. q.number == subscription) self.now.queues) }
    {
        match queue_in(self.queues.as_slice(), subscription) {
            Some(queue) => queue.first(&self.places),
            None => None,
        }
    }

    /// Whether a post of the notice at this place to the subscription of this number may be recorded: the subscription
    /// is live, and the place is that of the first notice that waits for it.
    ///
    /// Source: own rule.
    pub fn may_post(&self, subscription: u64, place: u64) -> bool
        ensures judged { Judges subscription place result self.now.queues }
    {
        match self.first_of(subscription) {
            Some(first) => first == place,
            None => false,
        }
    }
}
