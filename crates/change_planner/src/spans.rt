//! Which items of a holding are of a VDU, and which of a machine. They stand side by side, so each is found by two
//! searches.

ghost use Rattle.std.specs.Prelude.{◌≡◌, ◌-◌, ◌≤◌, drop, filter, length, take, true};
ghost use Rattle.change_planner.specs.Rolls.{are_in_order, comes_before, has_vdu, is_at};

use lcm_events::Held;

/// How many items stand before those of a VDU with this serial.
fn count_before(items: &[Held], vdu: u32, serial: u64) -> usize
    requires { are_in_order items.now ≡ true }
    ensures value { result ≡ length (filter (comes_before vdu serial) items.now) }
    ensures bound { result ≤ length items.now }
{
    items.partition_point(
        |item: &Held| -> bool
            ensures { result ≡ comes_before vdu serial item.now }
        {
            let own = item.def.vdu as u32;
            own < vdu || (own == vdu && (item.def.serial as u64) < serial)
        },
    )
}

/// The items from one place on and before another.
fn between(items: &[Held], start: usize, end: usize) -> &[Held]
    requires order { start ≤ end }
    requires bound { end ≤ length items.now }
    ensures { result.now ≡ take (end - start) (drop start items.now) }
{
    &items[start..end]
}

/// The items of a VDU; links are of number 65,535.
pub(crate) fn items_of_vdu(items: &[Held], vdu: u16) -> &[Held]
    requires { are_in_order items.now ≡ true }
    ensures { result.now ≡ filter (has_vdu vdu) items.now }
{
    let start = count_before(items, vdu as u32, 0);
    let end = count_before(items, vdu as u32 + 1, 0);
    between(items, start, end)
}

/// The items of a VDU with this serial.
pub(crate) fn items_at(items: &[Held], vdu: u16, serial: u32) -> &[Held]
    requires { are_in_order items.now ≡ true }
    ensures { result.now ≡ filter (is_at vdu serial) items.now }
{
    let start = count_before(items, vdu as u32, serial as u64);
    let end = count_before(items, vdu as u32, serial as u64 + 1);
    between(items, start, end)
}
