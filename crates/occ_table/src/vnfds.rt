//! Which descriptor each instance was made of, by the numbers of the instances: a number an instance, and each name
//! once.

ghost use Rattle.std.specs.Prelude.{◌≡◌, ◌≤◌, ◌<◌, ◌++◌, ◌∷◌, [], List, ℕ, Some, OnOk, length, slice_get, vec_capacity};
ghost use Rattle.std.specs.Prelude.{vec_len};
ghost use Rattle.occ_table.specs.Descriptors.{NamesEach, name_at, named_by, numbered, vnfd_in};

use std::alloc::{AllocError, Global};
use std::marker::Model;
use vnfm_base::Name;

/// The name without bytes.
pub fn no_name() -> Name
    ensures { result ≡ [] }
{
    match Name::of(b"") {
        Some(name) => name,
        None => unreachable!(),
    }
}

/// The name at this place of a list; no bytes beyond its end.
fn name_at(names: &[Name], at: usize) -> Name
    ensures { result ≡ name_at names.now at }
{
    match names.get(at) {
        Some(name) => *name,
        None => no_name(),
    }
}

/// The number that is kept of the instance of this number.
fn number_of(numbers: &[usize], instance: u64) -> Option<usize>
    ensures { result ≡ numbered instance numbers.now }
{
    if instance == 0 {
        return None;
    }
    numbers.get((instance - 1) as usize).copied()
}

/// The first place of a name in a list, or its length where the name isn't in it.
fn place_among(names: &[Name], name: &Name) -> usize
    ensures within { result ≤ length names.now }
    ensures there { result < length names.now → slice_get names.now result ≡ Some name.now }
{
    for (at, other) in names.iter().enumerate() {
        if *other == *name {
            return at;
        }
    }
    names.len()
}

/// The place of a name in a list, into which it comes last where it isn't there: no memory is taken.
fn put_among(names: &mut Vec<Name>, name: Name) -> usize
    requires { vec_len names.old < vec_capacity names.old }
    ensures each { (ns : List ℕ) → NamesEach names.old.items ns → NamesEach names.new.items (ns ++ result ∷ []) }
    ensures named { (ns : List ℕ) → NamesEach names.old.items ns
        → named_by names.new.items (ns ++ result ∷ []) ≡ named_by names.old.items ns ++ name ∷ [] }
{
    let at = place_among(names.as_slice(), &name);
    if at == names.len() {
        names.push_reserved(name);
    }
    at
}

/// Which descriptor each instance was made of.
///
/// A contract sees the identifier of each instance's descriptor, in the order of the instances' numbers, and for how
/// many more there is room.
#[derive(Drop)]
pub struct Vnfds {
    names: Vec<Name>,
    numbers: Vec<usize>,
}

impl Model for Vnfds {
    ghost use Rattle.std.specs.Prelude.{◌-◌, min, vec_capacity, vec_len};
    ghost use Rattle.occ_table.specs.Descriptors.{KeptDescriptors, NamesEach, named_by};

    ghost Value = { KeptDescriptors };

    ghost view = { λ v. record {
      vnfds = named_by v.names.items v.numbers.items;
      spare =
          min (vec_capacity v.names - vec_len v.names) (vec_capacity v.numbers - vec_len v.numbers);
    } };

    ghost invariant = { λ v. NamesEach v.names.items v.numbers.items };
}

impl Vnfds {
    /// Of no instance, and no memory is taken.
    pub fn new(alloc: Global) -> Self
        ensures { result.vnfds ≡ [] }
    {
        Vnfds {
            names: Vec::new(alloc),
            numbers: Vec::new(alloc),
        }
    }

    /// Lays aside what one more needs.
    pub fn reserve(&mut self) -> Result<(), AllocError>
        ensures kept { self.new.vnfds ≡ self.old.vnfds }
        ensures spare { OnOk result (0 < self.new.spare) }
    {
        self.names.reserve(1)?;
        self.numbers.reserve(1)?;
        Ok(())
    }

    /// The descriptor of one instance more, for which there is room: no memory is taken.
    pub fn push(&mut self, vnfd: Name)
        requires { 0 < self.old.spare }
        ensures { self.new.vnfds ≡ self.old.vnfds ++ vnfd ∷ [] }
    {
        let number = put_among(&mut self.names, vnfd);
        self.numbers.push_reserved(number);
    }

    /// The descriptor of the instance of this number; no bytes where there is no such instance.
    pub fn at(&self, instance: u64) -> Name
        ensures { result ≡ vnfd_in instance self.now.vnfds }
    {
        match number_of(self.numbers.as_slice(), instance) {
            Some(number) => name_at(self.names.as_slice(), number),
            None => no_name(),
        }
    }
}
