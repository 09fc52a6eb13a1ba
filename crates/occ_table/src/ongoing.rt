//! Which operation of each instance goes on: a list by the numbers of the instances.

ghost use Rattle.std.specs.Prelude.{◌≡◌, ◌++◌, ◌∷◌, [], None, vec_capacity, vec_len};
ghost use Rattle.occ_table.specs.Ongoing.{instance_in, ongoing_in, ongoing_moved, with_ongoing};

use crate::cells::set_in;
use crate::slots::Slot;
use lcm_events::OpState;
use lcm_model::ends;

/// The instance of the occurrence of this number, where there is one.
pub fn instance_of(rows: &[Slot], occ: u64) -> Option<u64>
    ensures { result ≡ instance_in occ rows.now }
{
    if occ == 0 {
        return None;
    }
    let slot = rows.get((occ - 1) as usize)?;
    Some(slot.row().instance)
}

/// The ongoing operation of the instance of this number, where it has one.
pub fn ongoing_at(ongoing: &[Option<u64>], instance: u64) -> Option<u64>
    ensures { result ≡ ongoing_in instance ongoing.now }
{
    if instance == 0 {
        return None;
    }
    let occ = ongoing.get((instance - 1) as usize)?;
    *occ
}

/// The instance of this number has this ongoing operation from now on, or none. Nothing happens where there is no such
/// instance.
pub fn set_ongoing(ongoing: &mut Vec<Option<u64>>, instance: u64, occ: Option<u64>)
    ensures items { ongoing.new.items ≡ with_ongoing instance occ ongoing.old.items }
    ensures length { vec_len ongoing.new ≡ vec_len ongoing.old }
    ensures capacity { vec_capacity ongoing.new ≡ vec_capacity ongoing.old }
{
    if instance > 0 {
        set_in(ongoing, (instance - 1) as usize, occ);
    }
}

/// Lets the ongoing operations follow a move of an operation of this instance: in a final state it goes on no more.
pub fn move_ongoing(ongoing: &mut Vec<Option<u64>>, instance: Option<u64>, to: OpState)
    ensures items { ongoing.new.items ≡ ongoing_moved instance to ongoing.old.items }
    ensures length { vec_len ongoing.new ≡ vec_len ongoing.old }
    ensures capacity { vec_capacity ongoing.new ≡ vec_capacity ongoing.old }
{
    if let Some(instance) = instance {
        if ends(to) {
            set_ongoing(ongoing, instance, None);
        }
    }
}
