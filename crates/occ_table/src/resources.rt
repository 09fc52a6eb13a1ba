//! The resource and the place of each definition of an instance that an attempt can still ask for, by keys.

ghost use Rattle.std.specs.List.{list_any};
ghost use Rattle.std.specs.Option.{option_map_or};
ghost use Rattle.std.specs.Prelude.{◌≡◌, ◌&&◌, ◌==◌, ◌<◌, ◌≤◌, ℕ, None, Some, false, not, true, OnOk, cond};
ghost use Rattle.std.specs.Prelude.{if◌then◌else◌, option_and_then, option_map};
ghost use Rattle.std.specs.HashMap.{spare};
ghost use Rattle.lcm_events.specs.Same.{same_def, same_way};
ghost use Rattle.lcm_events.specs.declared.attempts.Way.TheVariants.{Forward};
ghost use Rattle.lcm_events.specs.declared.changes.Def.{Def};
ghost use Rattle.lcm_model.specs.Holding.{leaves_it};
ghost use Rattle.occ_table.specs.Resources.{kept_by, kept_of, key_of, learned, left, outlasting, same_key, standing};
ghost use Rattle.occ_table.specs.Resources.{touched, used_after, used_of, where_it_stands};
ghost use Rattle.occ_table.specs.Used.{placed};
ghost use Rattle.occ_table.specs.declared.resources.Key.{Key};

use crate::rooms::Rooms;
use crate::rows::OccRow;
use crate::used::{PackedUsed, Used};
use lcm_events::{Change, Def, Place, Verb, Way};
use lcm_model::Effect;
use std::alloc::{AllocError, Global};
use std::collections::HashMap;
use std::marker::Model;
use vnfm_base::Name;

/// What an attempt did that was done, and the place that was granted to its change.
#[derive(Clone, Copy)]
pub struct DoneAttempt {
    /// What it did.
    pub effect: Effect,
    /// The place that was granted.
    pub place: Option<Place>,
}

/// The name of a definition of an instance.
#[derive(Clone, Copy, PartialEq, Eq, Hash)]
pub struct Key {
    /// The number of the instance.
    pub instance: u64,
    /// The number of its kind.
    pub kind: u8,
    /// The number of the link, storage or port.
    pub item: u16,
    /// The number of the VDU.
    pub vdu: u16,
    /// The serial number of the VNFC.
    pub serial: u32,
}

impl Key {
    /// The key of a definition of an instance.
    fn of(instance: u64, def: &Def) -> Key
        ensures { result ≡ key_of instance def.now }
    {
        Key {
            instance,
            kind: def.kind.number(),
            item: def.item,
            vdu: def.vdu,
            serial: def.serial,
        }
    }
}

/// What is kept of a definition.
#[derive(Drop)]
pub struct Entry {
    /// Its resource, with its place.
    pub used: PackedUsed,
    /// Whether it stands.
    pub stands: bool,
}

/// What is kept of definitions.
///
/// A contract sees what is kept by each key, and what is laid aside for one more.
#[derive(Drop)]
pub struct Resources {
    entries: HashMap<Key, Entry>,
    names: Rooms,
}

impl Model for Resources {
    ghost use Rattle.std.specs.HashMap.{spare};
    ghost use Rattle.occ_table.specs.Resources.{KeptResources};

    ghost Value = { KeptResources };

    ghost view = { λ r. record { entries = r.entries.entries; spare = spare r.entries; room = r.names } };
}

/// Puts what is kept by a key, for which there is room.
fn insert(entries: &mut HashMap<Key, Entry>, key: Key, entry: Entry)
    requires { 0 < spare entries.old }
    ensures { (q : Key) → kept_by entries.new.entries q ≡ cond (same_key key q) (Some entry)
        (kept_by entries.old.entries q) }
{
    match entries.insert(key, entry) {
        Ok(_) => {}
        Err(_) => unreachable!(),
    }
}

/// What is kept by a key stands from now on, or doesn't. Nothing happens where nothing is kept.
fn leave_in(entries: &mut HashMap<Key, Entry>, key: &Key, stands: bool)
    ensures { (q : Key) → kept_by entries.new.entries q ≡ cond (same_key key.now q)
        (option_map (left stands) (kept_by entries.old.entries q)) (kept_by entries.old.entries q) }
{
    match entries.get_mut(key) {
        Some(entry) => entry.stands = stands,
        None => {}
    }
}

/// Whether what is kept by a key doesn't stand.
fn is_gone(entries: &HashMap<Key, Entry>, key: &Key) -> bool
    ensures { result ≡ option_map_or (λ e. not e.stands) (kept_by entries.now.entries key.now) false }
{
    match entries.get(key) {
        Some(entry) => !entry.stands,
        None => false,
    }
}

impl Resources {
    /// Nothing is kept, and no memory is taken.
    pub fn new(alloc: Global) -> Self
        ensures { (q : Key) → kept_by result.entries q ≡ None }
    {
        Resources {
            entries: HashMap::new(alloc),
            names: Rooms::new(),
        }
    }

    /// Lays aside what one more needs.
    pub fn reserve(&mut self, alloc: Global) -> Result<(), AllocError>
        ensures kept { (q : Key) → kept_by self.new.entries q ≡ kept_by self.old.entries q }
        ensures spare { OnOk result (0 < self.new.spare) }
        ensures room { OnOk result (765 ≤ self.new.room) }
    {
        self.entries.reserve(1)?;
        self.names.reserve(alloc)
    }

    /// The resource that is kept by a key, with its place.
    fn at(&self, key: &Key) -> Option<Used>
        ensures { result ≡ used_of (kept_by self.now.entries key.now) }
    {
        match self.entries.get(key) {
            Some(entry) => Some(entry.used.unpack()),
            None => None,
        }
    }

    /// The resource that is kept of a definition of an instance, with its place.
    pub fn of(&self, instance: u64, def: &Def) -> Option<Used>
        ensures { result ≡ used_of (kept_of self.now.entries instance def.now) }
    {
        self.at(&Key::of(instance, def))
    }

    /// From now on this is kept by a key, and stands: no memory is taken.
    fn put(&mut self, key: Key, used: &Used)
        requires room { 765 ≤ self.old.room }
        requires spare { 0 < self.old.spare }
        ensures { (q : Key) → kept_by self.new.entries q ≡ cond (same_key key q) (standing (Some used.now))
            (kept_by self.old.entries q) }
    {
        if let Some(names) = self.names.take(used.names_len()) {
            let used = PackedUsed::of(names, used);
            insert(&mut self.entries, key, Entry { used, stands: true });
        }
    }

    /// From now on nothing is kept by a key, and its memory is given back.
    fn forget(&mut self, key: &Key)
        ensures entries { (q : Key) → kept_by self.new.entries q
            ≡ cond (same_key key.now q) None (kept_by self.old.entries q) }
        ensures spare { self.old.spare ≤ self.new.spare }
        ensures room { self.new.room ≡ self.old.room }
    {
        let _ = self.entries.remove(key);
    }

    /// From now on a definition stands that has this resource, and this place.
    fn set(&mut self, key: Key, resource: Name, place: Option<Place>)
        requires room { 765 ≤ self.old.room }
        requires spare { 0 < self.old.spare }
        ensures { (q : Key) → kept_by self.new.entries q ≡ cond (same_key key q)
            (standing (placed (Some resource) place)) (kept_by self.old.entries q) }
    {
        match place {
            Some(place) => self.put(key, &Used { resource, place }),
            None => self.forget(&key),
        }
    }

    /// The place that is kept by a key.
    fn place_at(&self, key: &Key) -> Option<Place>
        ensures { result ≡ option_map (λ u. u.place) (used_of (kept_by self.now.entries key.now)) }
    {
        let used = self.at(key)?;
        Some(used.place)
    }

    /// The place of a definition that an attempt made: that which was granted, or for an undo the one that it had.
    fn place_of(&self, key: &Key, deed: &DoneAttempt) -> Option<Place>
        ensures { result ≡ (if same_way deed.now.effect.tag.way Forward then deed.now.place
            else option_map (λ u. u.place) (used_of (kept_by self.now.entries key.now))) }
    {
        match deed.effect.tag.way {
            Way::Forward => deed.place,
            Way::Undo => self.place_at(key),
        }
    }

    /// Learns what an attempt did: no memory is taken.
    fn learn(&mut self, deed: &DoneAttempt)
        requires room { 765 ≤ self.old.room }
        requires spare { 0 < self.old.spare }
        ensures { (i : ℕ) (x : Def) → kept_of self.new.entries i x
            ≡ learned (Some deed.now) (kept_of self.old.entries) i x }
    {
        let effect = &deed.effect;
        let key = Key::of(effect.instance, &effect.def);
        if effect.verb == Verb::Create {
            let place = self.place_of(&key, deed);
            self.set(key, effect.resource, place);
        } else {
            leave_in(&mut self.entries, &key, effect.verb != Verb::Remove);
        }
    }

    /// Learns what an attempt did, where it did something, and tells what its change used: no memory is taken.
    pub fn take(&mut self, deed: &Option<DoneAttempt>) -> Option<Used>
        requires room { 765 ≤ self.old.room }
        requires spare { 0 < self.old.spare }
        ensures kept { (i : ℕ) (x : Def) → kept_of self.new.entries i x
            ≡ learned deed.now (kept_of self.old.entries) i x }
        ensures used { result ≡ used_after deed.now (kept_of self.old.entries) }
    {
        match deed {
            Some(deed) => {
                self.learn(deed);
                self.used_by(deed)
            }
            None => None,
        }
    }

    /// What the change of an attempt used, after what it did was learned.
    fn used_by(&self, deed: &DoneAttempt) -> Option<Used>
        ensures { result ≡ (if same_way deed.now.effect.tag.way Forward
            then used_of (kept_of self.now.entries deed.now.effect.instance deed.now.effect.def) else None) }
    {
        match deed.effect.tag.way {
            Way::Forward => self.of(deed.effect.instance, &deed.effect.def),
            Way::Undo => None,
        }
    }

    /// Forgets a definition of an instance, where it doesn't stand.
    fn forget_gone(&mut self, instance: u64, def: &Def)
        ensures entries { (i : ℕ) (x : Def) → kept_of self.new.entries i x
            ≡ cond ((instance == i) && same_def def.now x) (option_and_then where_it_stands
            (kept_of self.old.entries i x)) (kept_of self.old.entries i x) }
        ensures spare { self.old.spare ≤ self.new.spare }
        ensures room { self.new.room ≡ self.old.room }
    {
        let key = Key::of(instance, def);
        if is_gone(&self.entries, &key) {
            self.forget(&key);
        }
    }

    /// Forgets the definitions of these changes of an instance that don't stand.
    fn forget_gone_among(&mut self, instance: u64, changes: &[Change])
        ensures entries { (i : ℕ) (x : Def) → kept_of self.new.entries i x
            ≡ cond ((instance == i) && list_any (λ c. same_def c.def x) changes.now)
            (option_and_then where_it_stands (kept_of self.old.entries i x)) (kept_of self.old.entries i x) }
        ensures spare { self.old.spare ≤ self.new.spare }
        ensures room { self.new.room ≡ self.old.room }
    {
        for change in changes {
            self.forget_gone(instance, &change.def);
        }
    }

    /// Forgets, once the occurrence of a row is over, the definitions of its changes that don't stand, since nothing
    /// asks for them any more. Each change is looked at once, and the memory is given back.
    pub fn forget_gone_of(&mut self, row: &OccRow)
        ensures entries { (i : ℕ) (x : Def) → kept_of self.new.entries i x
            ≡ outlasting (Some row.now) (kept_of self.old.entries) i x }
        ensures spare { self.old.spare ≤ self.new.spare }
        ensures room { self.new.room ≡ self.old.room }
    {
        self.forget_gone_among(row.instance, row.changes.as_slice());
    }
}
