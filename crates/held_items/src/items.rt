//! Items that come, go, start and stop, in a vector in order of definition.

ghost use Rattle.std.specs.Prelude.{◌≡◌, ◌<◌, ◌≤◌, vec_capacity, vec_len};
ghost use Rattle.std.specs.List.{insert};
ghost use Rattle.held_items.specs.Items.{AreInOrder, with_item, with_power, without};

use crate::order::{item_at, place_of};
use lcm_events::{Def, Held};
use std::mem;

/// Takes the item of a definition out.
pub fn remove_in(items: &mut Vec<Held>, def: Def)
    ensures { AreInOrder items.old.items → items.new.items ≡ without def items.old.items }
{
    let at = place_of(items.as_slice(), def);
    if item_at(items.as_slice(), at, def).is_some() {
        items.remove(at);
    }
}

/// Says that the item of a definition runs, or doesn't.
pub fn set_running_in(items: &mut Vec<Held>, def: Def, running: bool)
    ensures { AreInOrder items.old.items → items.new.items ≡ with_power def running items.old.items }
{
    let at = place_of(items.as_slice(), def);
    if item_at(items.as_slice(), at, def).is_some() {
        items[at].running = running;
    }
}

/// Puts an item at a place, by moving all items into the room that is spare.
fn move_and_insert(items: &mut Vec<Held>, spare: &mut Vec<Held>, at: usize, item: &Held)
    requires place { at ≤ vec_len items.old }
    requires room { vec_len items.old < vec_capacity spare.old }
    ensures { items.new.items ≡ insert items.old.items at item.now }
{
    spare.clear();
    if spare.append(items).is_err() {
        unreachable!();
    }
    if spare.insert(at, *item).is_err() {
        unreachable!();
    }
    mem::swap(items, spare);
}

/// Puts an item at a place, by moving all items into the room that is spare where they have no room themselves.
fn insert_at(items: &mut Vec<Held>, spare: &mut Vec<Held>, at: usize, item: &Held)
    requires place { at ≤ vec_len items.old }
    requires room { vec_len items.old < vec_capacity spare.old }
    ensures { items.new.items ≡ insert items.old.items at item.now }
{
    if items.insert(at, *item).is_err() {
        move_and_insert(items, spare, at, item);
    }
}

/// Puts an item in its place, over one of its definition.
pub fn put_in(items: &mut Vec<Held>, spare: &mut Vec<Held>, item: &Held)
    requires room { vec_len items.old < vec_capacity spare.old }
    ensures { AreInOrder items.old.items → items.new.items ≡ with_item item.now items.old.items }
{
    let at = place_of(items.as_slice(), item.def);
    if item_at(items.as_slice(), at, item.def).is_some() {
        items[at] = *item;
    } else {
        insert_at(items, spare, at, item);
    }
}
