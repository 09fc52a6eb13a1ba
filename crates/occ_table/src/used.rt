//! What the changes of an occurrence used: for each the resource that it made, removed or powered, with its place, in
//! as many bytes as their names have.

ghost use Rattle.std.specs.Prelude.{◌≡◌, ◌≤◌, ◌+◌, ◌++◌, None, Some, IfOk, option_and_then, replicate, slice_get};
ghost use Rattle.std.specs.Prelude.{slice_set, vec_capacity, vec_len};
ghost use Rattle.vnfm_base.specs.Text.{IsName};
ghost use Rattle.occ_table.specs.Packed.{names_length};
ghost use Rattle.occ_table.specs.declared.used.Used.{Used};

use crate::names::{append, name_of};
use lcm_events::Place;
use std::alloc::{AllocError, Global};
use std::marker::Model;
use vnfm_base::Name;

/// A resource that a change made, removed or powered, and where it stands.
///
/// Source: SOL 003 5.5.2.13 (VnfLcmOpOcc, resourceChanges).
#[derive(Clone, Copy)]
pub struct Used {
    /// The infrastructure's name of the resource.
    pub resource: Name,
    /// Its place.
    pub place: Place,
}

impl Used {
    /// How many bytes its names have.
    pub fn names_len(&self) -> usize
        ensures value { result ≡ names_length self.now }
        ensures bound { result ≤ 765 }
    {
        self.resource.len() + (self.place.vim.len() + self.place.zone.len())
    }
}

/// What a change used, in as many bytes as its names have.
///
/// A contract sees the resource with its place.
#[derive(Drop)]
pub struct PackedUsed {
    names: Vec<u8>,
    resource: u8,
    vim: u8,
}

impl Model for PackedUsed {
    ghost use Rattle.occ_table.specs.Packed.{HoldsNames, unpacked};
    ghost use Rattle.occ_table.specs.declared.used.Used.{Used};

    ghost Value = { Used };

    ghost view = { λ p. unpacked p.names.items p.resource p.vim };

    ghost invariant = { λ p. HoldsNames p.names.items p.resource p.vim };
}

/// Writes the names into a text that has room for them.
fn write_names(names: &mut Vec<u8>, used: &Used)
    requires { names_length used.now ≤ vec_capacity names.old }
    ensures names { names.new.items ≡ used.now.resource ++ (used.now.place.vim ++ used.now.place.zone) }
    ensures zone { IsName used.now.place.zone }
{
    names.clear();
    append(names, used.resource.as_bytes());
    append(names, used.place.vim.as_bytes());
    append(names, used.place.zone.as_bytes());
}

impl PackedUsed {
    /// What a change used, in a text that has room for its names and gives back what isn't needed: no memory is taken.
    pub fn of(names: Vec<u8>, used: &Used) -> PackedUsed
        requires { names_length used.now ≤ vec_capacity names }
        ensures { result ≡ used.now }
    {
        let mut names = names;
        write_names(&mut names, used);
        names.shrink_to_fit();
        PackedUsed {
            names,
            resource: used.resource.len() as u8,
            vim: used.place.vim.len() as u8,
        }
    }

    /// The same, in memory of its own.
    pub fn copy(&self, alloc: Global) -> Result<PackedUsed, AllocError>
        ensures { IfOk result (λ p. p ≡ self.now) }
    {
        let names = self.names.as_slice().to_vec(alloc)?;
        Ok(PackedUsed {
            names,
            resource: self.resource,
            vim: self.vim,
        })
    }

    /// The resource with its place.
    pub fn unpack(&self) -> Used
        ensures { result ≡ self.now }
    {
        let (resource, place) = self.names.as_slice().split_at(self.resource as usize);
        let (vim, zone) = place.split_at(self.vim as usize);
        Used {
            resource: name_of(resource),
            place: Place {
                vim: name_of(vim),
                zone: name_of(zone),
            },
        }
    }
}

/// A copy of what a change used, where it used something.
fn copied_used(alloc: Global, used: &Option<PackedUsed>) -> Result<Option<PackedUsed>, AllocError>
    ensures { IfOk result (λ u. u ≡ used.now) }
{
    match used {
        Some(used) => Ok(Some(used.copy(alloc)?)),
        None => Ok(None),
    }
}

/// What each change of an occurrence used, in the order of the plan.
///
/// A contract sees a list with an entry for each change.
///
/// Source: SOL 003 5.5.2.13 (VnfLcmOpOcc, resourceChanges).
#[derive(Drop)]
pub struct Uses {
    entries: Vec<Option<PackedUsed>>,
}

impl Model for Uses {
    ghost use Rattle.std.specs.Prelude.{List, Option};
    ghost use Rattle.occ_table.specs.declared.used.Used.{Used};

    ghost Value = { List (Option Used) };

    ghost view = { λ u. u.entries.items };
}

impl Uses {
    /// So many changes that used nothing.
    pub fn none(alloc: Global, changes: usize) -> Result<Uses, AllocError>
        ensures { IfOk result (λ u. u ≡ replicate changes None) }
    {
        let mut entries = Vec::with_capacity(alloc, changes)?;
        for _ in 0..changes {
            entries.push(None)?;
        }
        Ok(Uses { entries })
    }

    /// The same, in memory of their own.
    pub fn copy(&self, alloc: Global) -> Result<Uses, AllocError>
        ensures { IfOk result (λ u. u ≡ self.now) }
    {
        let mut entries = Vec::with_capacity(alloc, self.entries.len())?;
        for used in self.entries.iter() {
            entries.push(copied_used(alloc, used)?)?;
        }
        Ok(Uses { entries })
    }

    /// What the change of this number used; none where it used nothing, or there is no such change.
    pub fn at(&self, change: usize) -> Option<Used>
        ensures { result ≡ option_and_then (λ u. u) (slice_get self.now change) }
    {
        match self.entries.as_slice().get(change)? {
            Some(used) => Some(used.unpack()),
            None => None,
        }
    }

    /// What the change of this number used from now on. Nothing happens where there is no such change.
    pub fn set(&mut self, change: usize, used: PackedUsed)
        ensures { self.new ≡ slice_set self.old change (Some used) }
    {
        if change < self.entries.len() {
            self.entries[change] = Some(used);
        }
    }
}
