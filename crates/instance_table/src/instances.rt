//! The rows of instances: which has a number, and what is done to that row.

ghost use Rattle.std.specs.Prelude.{◌≡◌, ◌<◌, ◌≤◌, true, false, find, nat_lt, ◌==◌, length, map, option_copied};
ghost use Rattle.std.specs.Prelude.{slice_get, IfSome, OnOk, vec_len, vec_capacity};
ghost use Rattle.std.specs.List.Sorted.{IsPartitionPoint, IsPartitionedBy};
ghost use Rattle.instance_table.specs.Steps.{HasItemRoom, Rises, after_work, asked, ended, update, with_key};
ghost use Rattle.instance_table.specs.Steps.{without_instance};

use crate::going::EndEffect;
use crate::rows::InstanceRow;
use crate::work::Work;
use held_items::Editor;
use lcm_events::{Change, Levels};
use std::alloc::AllocError;

/// How many instances come before this number, where their numbers rise.
fn instance_place(rows: &[InstanceRow], number: u64) -> usize
    ensures bound { result ≤ length rows.now }
    ensures place { IsPartitionedBy (λ r. nat_lt r.number number) rows.now
        → IsPartitionPoint (λ r. nat_lt r.number number ≡ true) (λ r. nat_lt r.number number ≡ false) rows.now result }
{
    rows.partition_point(
        |row: &InstanceRow| -> bool
            ensures { result ≡ nat_lt row.now.number number }
        { row.number < number },
    )
}

/// The instance at this place, if it has this number.
fn instance_at(rows: &[InstanceRow], at: usize, number: u64) -> Option<&InstanceRow>
    ensures { option_copied result ≡ with_key (λ r. r.number) number (slice_get rows.now at) }
{
    match rows.get(at) {
        Some(row) => {
            if row.number == number {
                Some(row)
            } else {
                None
            }
        }
        None => None,
    }
}

/// The instance of this number, where their numbers rise.
pub fn instance_in(rows: &[InstanceRow], number: u64) -> Option<&InstanceRow>
    ensures { Rises (λ r. r.number) rows.now → option_copied result ≡ find (λ r. r.number == number) rows.now }
{
    let at = instance_place(rows, number);
    instance_at(rows, at, number)
}

/// Takes the instance of this number out.
pub fn remove_instance(rows: &mut Vec<InstanceRow>, number: u64)
    ensures items { rows.new.items ≡ without_instance number rows.old.items }
    ensures length { vec_len rows.new ≤ vec_len rows.old }
    ensures capacity { vec_capacity rows.new ≡ vec_capacity rows.old }
{
    rows.retain(|row| !(row.number == number));
}

/// Lets the row at this place follow an ask. Nothing happens beyond the end.
fn ask_at(rows: &mut Vec<InstanceRow>, at: usize, number: u64, changes: &[Change])
    ensures items { rows.new.items ≡ update (asked number changes.now) at rows.old.items }
    ensures length { vec_len rows.new ≡ vec_len rows.old }
    ensures capacity { vec_capacity rows.new ≡ vec_capacity rows.old }
{
    let alloc = *rows.allocator();
    match rows.get_mut(at) {
        Some(row) => row.follow_ask(alloc, number, changes),
        None => {}
    }
}

/// Lets the row of this number follow an ask, where the numbers rise.
pub fn ask_in(rows: &mut Vec<InstanceRow>, number: u64, changes: &[Change])
    ensures items { Rises (λ r. r.number) rows.old.items → rows.new.items
        ≡ map (asked number changes.now) rows.old.items }
    ensures length { vec_len rows.new ≡ vec_len rows.old }
    ensures capacity { vec_capacity rows.new ≡ vec_capacity rows.old }
{
    let at = instance_place(rows.as_slice(), number);
    ask_at(rows, at, number, changes);
}

/// Lets the row at this place follow the end of an operation. Nothing happens beyond the end.
fn end_at(rows: &mut Vec<InstanceRow>, at: usize, number: u64, end_effect: EndEffect, aim: Levels)
    ensures items { rows.new.items ≡ update (ended number end_effect aim) at rows.old.items }
    ensures length { vec_len rows.new ≡ vec_len rows.old }
    ensures capacity { vec_capacity rows.new ≡ vec_capacity rows.old }
{
    match rows.get_mut(at) {
        Some(row) => row.follow_end(number, end_effect, aim),
        None => {}
    }
}

/// Lets the row of this number follow the end of an operation, where the numbers rise.
pub fn end_in(rows: &mut Vec<InstanceRow>, number: u64, end_effect: EndEffect, aim: Levels)
    ensures items { Rises (λ r. r.number) rows.old.items → rows.new.items
        ≡ map (ended number end_effect aim) rows.old.items }
    ensures length { vec_len rows.new ≡ vec_len rows.old }
    ensures capacity { vec_capacity rows.new ≡ vec_capacity rows.old }
{
    let at = instance_place(rows.as_slice(), number);
    end_at(rows, at, number, end_effect, aim);
}

/// Reserves room for one more item of the row at this place, if it has this number.
fn reserve_at(
    rows: &mut Vec<InstanceRow>,
    editor: &mut Editor,
    at: usize,
    number: u64,
) -> Result<(), AllocError>
    ensures kept { rows.new.items ≡ rows.old.items }
    ensures room { OnOk result (IfSome (with_key (λ r. r.number) number (slice_get rows.old.items at))
        (λ r. length r.holding.items < editor.new)) }
{
    match rows.get_mut(at) {
        Some(row) => row.reserve_item(editor, number),
        None => Ok(()),
    }
}

/// Reserves room for one more item of the row of this number, where the numbers rise.
pub fn reserve_in(
    rows: &mut Vec<InstanceRow>,
    editor: &mut Editor,
    number: u64,
) -> Result<(), AllocError>
    ensures kept { rows.new.items ≡ rows.old.items }
    ensures room { OnOk result (Rises (λ r. r.number) rows.old.items
        → IfSome (find (λ r. r.number == number) rows.old.items) (λ r. length r.holding.items < editor.new)) }
{
    let at = instance_place(rows.as_slice(), number);
    reserve_at(rows, editor, at, number)
}

/// Lets the row at this place follow what was done to what stands of an instance. Nothing happens beyond the end.
fn work_at(rows: &mut Vec<InstanceRow>, editor: &mut Editor, at: usize, work: &Work)
    ensures { IfSome (with_key (λ r. r.number) work.now.instance (slice_get rows.old.items at)) (HasItemRoom editor.old)
        → rows.new.items ≡ update (after_work work.now) at rows.old.items }
{
    match rows.get_mut(at) {
        Some(row) => row.follow_work(editor, work),
        None => {}
    }
}

/// Lets the row of its instance follow what was done, where the numbers rise.
pub fn work_among(rows: &mut Vec<InstanceRow>, editor: &mut Editor, work: &Work)
    ensures { Rises (λ r. r.number) rows.old.items → IfSome (find (λ r. r.number == work.now.instance) rows.old.items)
        (HasItemRoom editor.old) → rows.new.items ≡ map (after_work work.now) rows.old.items }
{
    let at = instance_place(rows.as_slice(), work.instance);
    work_at(rows, editor, at, work);
}
