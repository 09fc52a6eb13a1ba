//! What waits for one subscription, as marks of the last places, and what an event makes of a row and of many.

ghost use Rattle.std.specs.List.{All, list_any};
ghost use Rattle.std.specs.List.Sorted.{IsPartitionPoint, IsPartitionedBy};
ghost use Rattle.std.specs.Prelude.{ℕ, IfOk, IfSome, OnOk, filter, find, length, map, nat_lt, not, option_copied};
ghost use Rattle.std.specs.Prelude.{slice_get, vec_capacity, vec_len, true, false, [], ◌++◌, ◌<◌, ◌==◌, ◌^◌, ◌∷◌, ◌≡◌};
ghost use Rattle.std.specs.Prelude.{◌≤◌};
ghost use Rattle.std.specs.VecDeque.{deque_capacity, deque_len};
ghost use Rattle.instance_table.specs.Steps.{Rises, update, with_key};
ghost use Rattle.lcm_model.specs.Notices.{is_delivered, matches};
ghost use Rattle.lcm_model.specs.Words.{first};
ghost use Rattle.notice_table.specs.Rows.{IsWithin, after_row_post, asked, first_row, last_of, longest, plain, room};
ghost use Rattle.notice_table.specs.Rows.{row, row_posted, with_place};
ghost use Rattle.subscription_filter.specs.Facts.{facts_in};
ghost use Rattle.vnfm_base.specs.Ident.{IsIdentNumber};

use crate::marks::Marks;
use instance_table::copied_filter;
use lcm_events::{Filter, PostOutcome};
use std::alloc::{AllocError, Global};
use std::collections::VecDeque;
use subscription_filter::{AskedNotice, NoticeFacts, SortedFilter, matches};

/// Posts of a notice after which it is given up.
const TRIES: u8 = 5;

/// What waits for a live subscription.
#[derive(Drop)]
pub struct QueueRow {
    /// The subscription's number.
    pub number: u64,
    /// What it asks to be told.
    pub filter: SortedFilter,
    /// How often the first notice that waits was posted and not taken.
    pub tries: u8,
    /// Whether its filter lets the notice at hand through.
    pub hears: bool,
    /// Which of the last places it waits for: the first mark is set, so there is none where nothing waits.
    pub marks: Marks,
}

/// Whether a notice was taken.
fn is_delivered(outcome: PostOutcome) -> bool
    ensures { result ≡ is_delivered outcome }
{
    match outcome {
        PostOutcome::Delivered => true,
        PostOutcome::NotTaken => false,
    }
}

impl QueueRow {
    /// The row of a subscription that is made, for which nothing waits.
    pub fn new(alloc: Global, number: u64, filter: &Filter) -> Result<Self, AllocError>
        ensures { IfOk result (λ q. row q ≡ first_row number filter.now) }
    {
        let filter = SortedFilter::of(alloc, copied_filter(alloc, filter)?)?;
        Ok(QueueRow {
            number,
            filter,
            tries: 0,
            hears: false,
            marks: Marks::new(alloc),
        })
    }

    /// Reserves room for one more mark.
    fn reserve(&mut self) -> Result<(), AllocError>
        ensures kept { row self.new ≡ row self.old }
        ensures room { OnOk result (0 < room self.new) }
    {
        self.marks.reserve()
    }

    /// Asks its filter whether it lets the notice through.
    fn ask(&mut self, notice: &AskedNotice) -> bool
        ensures row { self.new ≡ asked notice.now.manager (facts_in notice.now) self.old }
        ensures answer { result ≡ matches notice.now.manager self.old.filter (facts_in notice.now) }
    {
        self.hears = matches(&self.filter, notice);
        self.hears
    }

    /// Marks the place of the notice at hand, and tells how many marks there are then. Where nothing waits, a place
    /// that isn't waited for gets no mark.
    fn mark(&mut self) -> usize
        requires room { 0 < room self.old }
        requires bound { length self.old.marks.marks < 2 ^ 63 }
        ensures row { row self.new ≡ with_place (row self.old) }
        ensures count { result ≡ length self.new.marks.marks }
    {
        if self.hears || self.marks.len() > 0 {
            self.marks.put(self.hears);
        }
        self.marks.len()
    }

    /// The first notice that waits was posted.
    fn record_post(&mut self, outcome: PostOutcome)
        ensures row { row self.new ≡ after_row_post outcome (row self.old) }
        ensures room { room self.old ≤ room self.new }
    {
        if is_delivered(outcome) || self.tries >= TRIES - 1 {
            self.marks.pass();
            self.tries = 0;
        } else {
            self.tries += 1;
        }
    }

    /// The first notice of the subscription of this number, which may be another, was posted.
    fn follow_post(&mut self, number: u64, outcome: PostOutcome)
        ensures row { row self.new ≡ row_posted number outcome (row self.old) }
        ensures room { room self.old ≤ room self.new }
    {
        if self.number == number {
            self.record_post(outcome);
        }
    }

    /// The place of the first notice that waits, of these places.
    pub fn first(&self, places: &VecDeque<u64>) -> Option<u64>
        requires within { IsWithin (length places.now.items) (row self.now) }
        ensures { result ≡ first (plain places.now.items (row self.now)).waiting }
    {
        places.get(places.len() - self.marks.len()).copied()
    }
}

/// Reserves room for one more mark in each row.
pub fn reserve_all(queues: &mut [QueueRow]) -> Result<(), AllocError>
    ensures kept { map row queues.new ≡ map row queues.old }
    ensures room { OnOk result (All (λ q. 0 < room q) queues.new) }
{
    for queue in queues.iter_mut() {
        queue.reserve()?;
    }
    Ok(())
}

/// Asks each filter whether it lets the notice through, and tells whether one does.
pub fn ask_all(queues: &mut [QueueRow], notice: &NoticeFacts) -> bool
    requires { IsIdentNumber notice.now.instance }
    ensures rows { queues.new ≡ map (asked notice.now.manager (facts_in notice.now)) queues.old }
    ensures answer { result ≡ list_any (λ q. matches notice.now.manager q.filter (facts_in notice.now)) queues.old }
{
    ask_each(queues, &AskedNotice::of(notice))
}

/// The same, of a notice that is ready to be asked about.
fn ask_each(queues: &mut [QueueRow], notice: &AskedNotice) -> bool
    ensures rows { queues.new ≡ map (asked notice.now.manager (facts_in notice.now)) queues.old }
    ensures answer { result ≡ list_any (λ q. matches notice.now.manager q.filter (facts_in notice.now)) queues.old }
{
    let mut heard = false;
    for queue in queues.iter_mut() {
        heard |= queue.ask(notice);
    }
    heard
}

/// Marks the place of the notice at hand in each row, and tells how many marks the row with the most has then.
fn mark_all(queues: &mut [QueueRow]) -> usize
    requires room { All (λ q. 0 < room q) queues.old }
    requires bound { All (λ q. length q.marks.marks < 2 ^ 63) queues.old }
    ensures rows { map row queues.new ≡ map with_place (map row queues.old) }
    ensures longest { result ≡ longest (map row queues.new) }
{
    let mut longest = 0;
    for queue in queues.iter_mut() {
        longest = queue.mark().max(longest);
    }
    longest
}

/// Drops the first places until no more than this many are left.
fn keep_last(places: &mut VecDeque<u64>, count: usize)
    ensures { places.new.items ≡ last_of count places.old.items }
{
    while places.len() > count {
        places.pop_front();
    }
}

/// Puts the place of the notice at hand, which some row hears, with its mark in each row, and drops the places that no
/// row has a mark for.
pub fn put_place(places: &mut VecDeque<u64>, queues: &mut [QueueRow], place: u64)
    requires place { deque_len places.old < deque_capacity places.old }
    requires room { All (λ q. 0 < room q) queues.old }
    requires bound { All (λ q. length q.marks.marks < 2 ^ 63) queues.old }
    ensures rows { map row queues.new ≡ map with_place (map row queues.old) }
    ensures places { places.new.items ≡ last_of (longest (map row queues.new)) (places.old.items ++ place ∷ []) }
{
    let longest = mark_all(queues);
    places.push_back_reserved(place);
    keep_last(places, longest);
}

/// How many queues come before this number, where their numbers rise.
fn queue_place(queues: &[QueueRow], number: u64) -> usize
    ensures bound { result ≤ length queues.now }
    ensures place { IsPartitionedBy (λ q. nat_lt q.number number) queues.now
        → IsPartitionPoint (λ q. nat_lt q.number number ≡ true)
        (λ q. nat_lt q.number number ≡ false) queues.now result }
{
    queues.partition_point(
        |queue: &QueueRow| -> bool
            ensures { result ≡ nat_lt queue.now.number number }
        { queue.number < number },
    )
}

/// The queue at this place, if it has this number.
fn queue_at(queues: &[QueueRow], at: usize, number: u64) -> Option<&QueueRow>
    ensures { option_copied result ≡ with_key (λ q. q.number) number (slice_get queues.now at) }
{
    match queues.get(at) {
        Some(queue) => {
            if queue.number == number {
                Some(queue)
            } else {
                None
            }
        }
        None => None,
    }
}

/// The queue of this number, where their numbers rise.
pub fn queue_in(queues: &[QueueRow], number: u64) -> Option<&QueueRow>
    ensures found { Rises (λ q. q.number) queues.now → option_copied result
        ≡ find (λ q. q.number == number) queues.now }
    ensures within { (count : ℕ) → All (IsWithin count) (map row queues.now)
        → IfSome (option_copied result) (λ q. IsWithin count (row q)) }
{
    let at = queue_place(queues, number);
    queue_at(queues, at, number)
}

/// Lets the queue at this place follow a post. Nothing happens beyond the end.
fn post_at(queues: &mut Vec<QueueRow>, at: usize, number: u64, outcome: PostOutcome)
    ensures rows { map row queues.new.items ≡ update (row_posted number outcome) at (map row queues.old.items) }
    ensures room { All (λ q. 0 < room q) queues.old.items → All (λ q. 0 < room q) queues.new.items }
    ensures length { vec_len queues.new ≡ vec_len queues.old }
    ensures capacity { vec_capacity queues.new ≡ vec_capacity queues.old }
{
    match queues.get_mut(at) {
        Some(queue) => queue.follow_post(number, outcome),
        None => {}
    }
}

/// Lets the queue of this number follow a post, where the numbers rise.
pub fn post_in(queues: &mut Vec<QueueRow>, number: u64, outcome: PostOutcome)
    ensures within { (count : ℕ) → All (IsWithin count) (map row queues.old.items)
        → All (IsWithin count) (map row queues.new.items) }
    ensures rows { Rises (λ q. q.number) queues.old.items
        → map row queues.new.items ≡ map (row_posted number outcome) (map row queues.old.items) }
    ensures room { All (λ q. 0 < room q) queues.old.items → All (λ q. 0 < room q) queues.new.items }
    ensures length { vec_len queues.new ≡ vec_len queues.old }
    ensures capacity { vec_capacity queues.new ≡ vec_capacity queues.old }
{
    let at = queue_place(queues.as_slice(), number);
    post_at(queues, at, number, outcome);
}

/// Takes the row of this number out.
pub fn remove(queues: &mut Vec<QueueRow>, number: u64)
    ensures items { queues.new.items ≡ filter (λ q. not (q.number == number)) queues.old.items }
    ensures length { vec_len queues.new ≤ vec_len queues.old }
    ensures capacity { vec_capacity queues.new ≡ vec_capacity queues.old }
{
    queues.retain(|queue| !(queue.number == number));
}
