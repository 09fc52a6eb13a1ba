//! The rows of subscriptions: which has a number, whose they are, and what is done to the row of a number.

ghost use Rattle.std.specs.Prelude.{◌≡◌, ◌≤◌, true, false, find, nat_lt, ◌==◌, length, map, option_copied, slice_get};
ghost use Rattle.std.specs.Prelude.{vec_len, vec_capacity, filter};
ghost use Rattle.std.specs.List.Sorted.{IsPartitionPoint, IsPartitionedBy};
ghost use Rattle.instance_table.specs.Steps.{Rises, posted, update, with_key, without_subscription};
ghost use Rattle.instance_table.specs.Table.{is_role_of};

use crate::rows::SubscriptionRow;
use lcm_events::{PostOutcome, Role};

/// How many subscriptions come before this number, where their numbers rise.
fn subscription_place(rows: &[SubscriptionRow], number: u64) -> usize
    ensures bound { result ≤ length rows.now }
    ensures place { IsPartitionedBy (λ r. nat_lt r.number number) rows.now
        → IsPartitionPoint (λ r. nat_lt r.number number ≡ true) (λ r. nat_lt r.number number ≡ false) rows.now result }
{
    rows.partition_point(
        |row: &SubscriptionRow| -> bool
            ensures { result ≡ nat_lt row.now.number number }
        { row.number < number },
    )
}

/// The subscription at this place, if it has this number.
fn subscription_at(rows: &[SubscriptionRow], at: usize, number: u64) -> Option<&SubscriptionRow>
    ensures { option_copied result ≡ with_key (λ r. r.number) number (slice_get rows.now at) }
{
    match rows.get(at) {
        Some(row) => {
            if row.number == number {
                Some(row)
            } else {
                None
            }
        }
        None => None,
    }
}

/// The subscription of this number, where their numbers rise.
pub fn subscription_in(rows: &[SubscriptionRow], number: u64) -> Option<&SubscriptionRow>
    ensures { Rises (λ r. r.number) rows.now → option_copied result ≡ find (λ r. r.number == number) rows.now }
{
    let at = subscription_place(rows, number);
    subscription_at(rows, at, number)
}

/// How many of the subscriptions are a role's.
pub fn count_of(rows: &[SubscriptionRow], role: Role) -> u64
    ensures { result ≡ length (filter (is_role_of role) rows.now) }
{
    let mut count = 0;
    for row in rows {
        if role == row.role {
            count += 1;
        }
    }
    count
}

/// Takes the subscription of this number out.
pub fn remove_subscription(rows: &mut Vec<SubscriptionRow>, number: u64)
    ensures items { rows.new.items ≡ without_subscription number rows.old.items }
    ensures length { vec_len rows.new ≤ vec_len rows.old }
    ensures capacity { vec_capacity rows.new ≡ vec_capacity rows.old }
{
    rows.retain(|row| !(row.number == number));
}

/// Lets the row at this place follow a post. Nothing happens beyond the end.
fn post_at(
    rows: &mut Vec<SubscriptionRow>,
    at: usize,
    number: u64,
    place: u64,
    outcome: PostOutcome,
)
    ensures items { rows.new.items ≡ update (posted number place outcome) at rows.old.items }
    ensures length { vec_len rows.new ≡ vec_len rows.old }
    ensures capacity { vec_capacity rows.new ≡ vec_capacity rows.old }
{
    match rows.get_mut(at) {
        Some(row) => row.follow_post(number, place, outcome),
        None => {}
    }
}

/// Lets the row of this number follow a post, where the numbers rise.
pub fn post_in(rows: &mut Vec<SubscriptionRow>, number: u64, place: u64, outcome: PostOutcome)
    ensures items { Rises (λ r. r.number) rows.old.items → rows.new.items
        ≡ map (posted number place outcome) rows.old.items }
    ensures length { vec_len rows.new ≡ vec_len rows.old }
    ensures capacity { vec_capacity rows.new ≡ vec_capacity rows.old }
{
    let at = subscription_place(rows.as_slice(), number);
    post_at(rows, at, number, place, outcome);
}
