//! The greatest serial number that any change gave, for each VDU of an instance.

ghost use Rattle.std.specs.Prelude.{◌≡◌, max};
ghost use Rattle.instance_table.specs.Steps.{raised, update};

use lcm_events::{Change, Listed};
use std::alloc::Global;
use std::mem;

/// A serial number was given.
fn raise(top: &mut u32, serial: u32)
    ensures { top.new ≡ max serial top.old }
{
    if *top < serial {
        *top = serial;
    }
}

/// A serial number of the VDU of this number was given. Nothing happens where there is no such VDU.
fn raise_at(tops: &mut Vec<u32>, vdu: usize, serial: u32)
    ensures { tops.new.items ≡ update (max serial) vdu tops.old.items }
{
    match tops.get_mut(vdu) {
        Some(top) => raise(top, serial),
        None => {}
    }
}

/// The serial numbers of these changes were given.
fn raise_all(tops: &mut Vec<u32>, changes: &[Change])
    ensures { tops.new.items ≡ raised changes.now tops.old.items }
{
    for change in changes {
        raise_at(tops, change.def.vdu as usize, change.def.serial);
    }
}

/// The serial numbers of these changes were given. No memory is taken.
pub fn raise_tops(alloc: Global, tops: &mut Listed<u32>, changes: &[Change])
    ensures { tops.new ≡ raised changes.now tops.old }
{
    let mut entries = mem::replace(tops, Listed::new(alloc)).into_vec();
    raise_all(&mut entries, changes);
    *tops = Listed::of(entries);
}
