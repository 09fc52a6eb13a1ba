//! An editor of lists of items, which puts an item into one without memory.

ghost use Rattle.std.specs.Prelude.{◌≡◌, ◌<◌, ◌≤◌, [], OnOk, false, length, option_copied};
ghost use Rattle.lcm_events.specs.Same.{same_verb};
ghost use Rattle.lcm_events.specs.declared.changes.Verb.TheVariants.{Create};
ghost use Rattle.held_items.specs.Following.{made, once_done};
ghost use Rattle.held_items.specs.Items.{AreInOrder, with_item, with_power, without};

use crate::items::{put_in, remove_in, set_running_in};
use lcm_events::{Def, DefKind, Held, Listed, Place, Verb};
use std::alloc::{AllocError, Global};
use std::marker::Model;
use std::mem;
use vnfm_base::Name;

/// The item of a resource that was just made: a compute runs.
fn made(def: Def, resource: &Name, place: &Place) -> Held
    ensures { result ≡ made def resource.now place.now }
{
    Held {
        def,
        resource: *resource,
        place: *place,
        running: def.kind == DefKind::Compute,
    }
}

/// An editor of lists of items, each in order of definition. It keeps room to which the items of a list move where the
/// list has no room for one more.
///
/// A contract sees how many items the editor has room for.
#[derive(Drop)]
pub struct Editor {
    room: Vec<Held>,
}

impl Model for Editor {
    ghost use Rattle.std.specs.Prelude.{vec_capacity, ℕ};

    ghost Value = { ℕ };

    ghost view = { λ e. vec_capacity e.room };
}

impl Editor {
    /// An editor with room for nothing, which takes no memory until something is reserved.
    pub fn new(alloc: Global) -> Self
        ensures { result ≡ 0 }
    {
        Editor {
            room: Vec::new(alloc),
        }
    }

    /// How many items there is room for.
    ///
    /// Source: own rule.
    pub fn room(&self) -> usize
        ensures { result ≡ self.now }
    {
        self.room.capacity()
    }

    /// Takes the items out of a list as a vector, which is moved and not copied.
    fn opened(&self, items: &mut Listed<Held>) -> Vec<Held>
        ensures opened { result.items ≡ items.old }
        ensures left { items.new ≡ [] }
    {
        let alloc = *self.room.allocator();
        mem::replace(items, Listed::new(alloc)).into_vec()
    }

    /// Reserves room for one more item than these, in their own list and beside it. The items stay, and the room never
    /// shrinks, also after an error.
    ///
    /// Source: own rule.
    pub fn reserve_for(&mut self, items: &mut Listed<Held>) -> Result<(), AllocError>
        ensures kept { items.new ≡ items.old }
        ensures room { OnOk result (length items.new < self.new) }
        ensures grows { self.old ≤ self.new }
    {
        let mut held = self.opened(items);
        let own = held.reserve(1);
        let count = held.len();
        *items = Listed::of(held);
        own?;
        self.room.clear();
        self.room.reserve(count + 1)
    }

    /// Does to items in order of definition what work with this verb did to a definition. What is made is of this
    /// resource and at this place; without a place nothing is made. It takes no memory, for what is made after
    /// `reserve_for` these items.
    ///
    /// Source: SOL 003 5.5.3 (the resource infos of an instance).
    pub fn follow(
        &mut self,
        items: &mut Listed<Held>,
        verb: Verb,
        def: Def,
        resource: &Name,
        place: Option<&Place>,
    )
        requires room { verb ≡ Create → length items.old < self.old }
        ensures items { AreInOrder items.old → items.new ≡ once_done verb def resource.now
            (option_copied place.entry) items.old }
        ensures stays { same_verb verb Create ≡ false → self.new ≡ self.old }
    {
        match verb {
            Verb::Create => {
                if let Some(place) = place {
                    self.put(items, made(def, resource, place));
                }
            }
            Verb::Remove => self.remove(items, def),
            Verb::Start => self.set_running(items, def, true),
            Verb::Stop => self.set_running(items, def, false),
        }
    }

    /// Puts an item in its place among items in order of definition, over one of its definition. It takes no memory
    /// after `reserve_for` these items, and moves the items behind the new one. Where their own list has no room after
    /// all, all of them move, and the room that is left is their old list's.
    ///
    /// Source: own rule.
    pub fn put(&mut self, items: &mut Listed<Held>, item: Held)
        requires room { length items.old < self.old }
        ensures { AreInOrder items.old → items.new ≡ with_item item items.old }
    {
        let mut held = self.opened(items);
        put_in(&mut held, &mut self.room, &item);
        *items = Listed::of(held);
    }

    /// Takes the item of a definition out of items in order of definition. Nothing happens where there is none. It
    /// takes no memory, and moves the items behind the one that goes.
    ///
    /// Source: own rule.
    pub fn remove(&self, items: &mut Listed<Held>, def: Def)
        ensures { AreInOrder items.old → items.new ≡ without def items.old }
    {
        let mut held = self.opened(items);
        remove_in(&mut held, def);
        *items = Listed::of(held);
    }

    /// Says among items in order of definition that that of a definition runs, or doesn't. Nothing happens where there
    /// is none. It takes no memory.
    ///
    /// Source: own rule.
    pub fn set_running(&self, items: &mut Listed<Held>, def: Def, running: bool)
        ensures { AreInOrder items.old → items.new ≡ with_power def running items.old }
    {
        let mut held = self.opened(items);
        set_running_in(&mut held, def, running);
        *items = Listed::of(held);
    }
}
