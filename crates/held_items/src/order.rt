//! Where the item of a definition is in a list in order of definition.

ghost use Rattle.std.specs.Prelude.{◌≡◌, ◌≤◌, false, length, option_copied, slice_get, true};
ghost use Rattle.std.specs.List.Sorted.{IsPartitionPoint, IsPartitionedBy};
ghost use Rattle.lcm_model.specs.Descriptors.{is_def_before};
ghost use Rattle.held_items.specs.Items.{AreInOrder, item_of, when_of};

use lcm_events::{Def, Held};
use lcm_model::is_def_before;

/// How many items stand before this definition, where they are in order.
pub fn place_of(items: &[Held], def: Def) -> usize
    ensures bound { result ≤ length items.now }
    ensures place { IsPartitionedBy (λ y. is_def_before y.def def) items.now
        → IsPartitionPoint (λ y. is_def_before y.def def ≡ true)
        (λ y. is_def_before y.def def ≡ false) items.now result }
{
    items.partition_point(
        |item: &Held| -> bool
            ensures { result ≡ is_def_before item.now.def def }
        { is_def_before(&item.def, &def) },
    )
}

/// The item at this place, if it is of this definition.
pub fn item_at(items: &[Held], at: usize, def: Def) -> Option<&Held>
    ensures { option_copied result ≡ when_of def (slice_get items.now at) }
{
    match items.get(at) {
        Some(item) => { if item.def == def { Some(item) } else { None } }
        None => None,
    }
}

/// The item of a definition, where the items are in order of definition. The time is a logarithm of their number.
///
/// Source: own rule.
pub fn find(items: &[Held], def: Def) -> Option<&Held>
    ensures { AreInOrder items.now → option_copied result ≡ item_of def items.now }
{
    let at = place_of(items, def);
    item_at(items, at, def)
}
