//! The numbers of the occurrences that the manager works on, the least first.

ghost use Rattle.std.specs.Prelude.{◌≡◌, ◌<◌, ◌≤◌, ◌↔◌, ◌++◌, ◌∷◌, [], OnOk, find, insert, length, nat_lt, not};
ghost use Rattle.std.specs.Prelude.{slice_get, vec_capacity, vec_len, IsTrue, Some};
ghost use Rattle.occ_table.specs.Going.{active_moved, first_from, with_number, without_number, Rises};

use lcm_events::OpState;
use lcm_model::works;
use std::alloc::AllocError;

/// The place of the first number that isn't below this one.
fn place_of(numbers: &[u64], number: u64) -> usize
    ensures place { result ≡ first_from number numbers.now }
    ensures bound { result ≤ length numbers.now }
{
    for (at, other) in numbers.iter().enumerate() {
        if *other >= number {
            return at;
        }
    }
    numbers.len()
}

/// Whether this number stands at a place.
fn is_at(numbers: &[u64], at: usize, number: u64) -> bool
    ensures { IsTrue result ↔ (slice_get numbers.now at ≡ Some number) }
{
    match numbers.get(at) {
        Some(other) => *other == number,
        None => false,
    }
}

/// Reserves places for as many numbers as are wanted in all.
pub fn reserve_places(numbers: &mut Vec<u64>, wanted: usize) -> Result<(), AllocError>
    ensures items { numbers.new.items ≡ numbers.old.items }
    ensures places { OnOk result (wanted ≤ vec_capacity numbers.new) }
    ensures capacity { vec_capacity numbers.old ≤ vec_capacity numbers.new }
{
    let more = wanted.saturating_sub(numbers.len());
    numbers.reserve(more)?;
    Ok(())
}

/// Puts a number last, where there is a place for it.
pub fn append(numbers: &mut Vec<u64>, number: u64)
    ensures items { vec_len numbers.old < vec_capacity numbers.old
        → numbers.new.items ≡ numbers.old.items ++ number ∷ [] }
    ensures capacity { vec_capacity numbers.new ≡ vec_capacity numbers.old }
{
    if numbers.len() < numbers.capacity() {
        numbers.push_reserved(number);
    }
}

/// Puts a number where there is room for one more.
fn insert_reserved(numbers: &mut Vec<u64>, at: usize, number: u64)
    requires bound { at ≤ length numbers.old.items }
    requires room { vec_len numbers.old < vec_capacity numbers.old }
    ensures items { numbers.new.items ≡ insert numbers.old.items at number }
    ensures capacity { vec_capacity numbers.new ≡ vec_capacity numbers.old }
{
    match numbers.insert(at, number) {
        Ok(()) => {}
        Err(_) => unreachable!(),
    }
}

/// Puts a number where it belongs, where there is a place for it.
fn insert_at(numbers: &mut Vec<u64>, at: usize, number: u64)
    requires { at ≤ length numbers.old.items }
    ensures items { vec_len numbers.old < vec_capacity numbers.old
        → numbers.new.items ≡ insert numbers.old.items at number }
    ensures capacity { vec_capacity numbers.new ≡ vec_capacity numbers.old }
{
    if numbers.len() < numbers.capacity() {
        insert_reserved(numbers, at, number);
    }
}

/// Puts a number among rising ones, where it isn't there and there is a place for it.
fn enter(numbers: &mut Vec<u64>, number: u64)
    ensures items { length (with_number number numbers.old.items) ≤ vec_capacity numbers.old
        → numbers.new.items ≡ with_number number numbers.old.items }
    ensures capacity { vec_capacity numbers.new ≡ vec_capacity numbers.old }
{
    let at = place_of(numbers.as_slice(), number);
    if !is_at(numbers.as_slice(), at, number) {
        insert_at(numbers, at, number);
    }
}

/// Takes a number out.
fn leave(numbers: &mut Vec<u64>, number: u64)
    ensures items { numbers.new.items ≡ without_number number numbers.old.items }
    ensures capacity { vec_capacity numbers.new ≡ vec_capacity numbers.old }
{
    numbers.retain(|other| !(*other == number));
}

/// Lets the active numbers follow a move of an occurrence to a state, where there is a place for each.
pub fn move_active(numbers: &mut Vec<u64>, occ: u64, to: OpState)
    ensures items { length (active_moved occ to numbers.old.items) ≤ vec_capacity numbers.old
        → numbers.new.items ≡ active_moved occ to numbers.old.items }
    ensures capacity { vec_capacity numbers.new ≡ vec_capacity numbers.old }
{
    if works(to) {
        enter(numbers, occ);
    } else {
        leave(numbers, occ);
    }
}

/// The number at this place.
fn number_at(numbers: &[u64], at: usize) -> Option<u64>
    ensures { result ≡ slice_get numbers.now at }
{
    numbers.get(at).copied()
}

/// The first number above this one, where they rise.
pub fn first_above(numbers: &[u64], after: u64) -> Option<u64>
    ensures { Rises numbers.now → result ≡ find (λ n. nat_lt after n) numbers.now }
{
    let at = numbers.partition_point(
        |number: &u64| -> bool
            ensures { result ≡ not (nat_lt after number.now) }
        { !(after < *number) },
    );
    number_at(numbers, at)
}
