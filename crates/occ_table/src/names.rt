//! Names in as many bytes as they have, for what is kept for ever.

ghost use Rattle.std.specs.Prelude.{◌≡◌, ◌≤◌, ◌+◌, ◌++◌, [], IfOk, length, vec_capacity, vec_len};
ghost use Rattle.vnfm_base.specs.Text.{IsName};

use std::alloc::{AllocError, Global};
use std::marker::Model;
use std::str;
use vnfm_base::Name;

/// A name on the heap, in as many bytes as it has.
///
/// A contract sees its bytes as a list, like those of a `Name`.
///
/// Source: own rule.
#[derive(Drop)]
pub struct PackedName {
    bytes: Vec<u8>,
}

impl Model for PackedName {
    ghost use Rattle.std.specs.Prelude.{ℕ, List};
    ghost use Rattle.vnfm_base.specs.Text.{IsName};

    ghost Value = { List ℕ };

    ghost view = { λ n. n.bytes.items };

    ghost invariant = { λ n. IsName n.bytes.items };
}

/// The name of these bytes, which are one.
pub fn name_of(bytes: &[u8]) -> Name
    requires { IsName bytes.now }
    ensures { result ≡ bytes.now }
{
    match Name::of(bytes) {
        Some(name) => name,
        None => unreachable!(),
    }
}

/// Puts bytes last, for which there is room.
pub fn append(names: &mut Vec<u8>, bytes: &[u8])
    requires { vec_len names.old + length bytes.now ≤ vec_capacity names.old }
    ensures items { names.new.items ≡ names.old.items ++ bytes.now }
    ensures length { vec_len names.new ≡ vec_len names.old + length bytes.now }
    ensures capacity { vec_capacity names.old ≤ vec_capacity names.new }
{
    match names.extend_from_slice(bytes) {
        Ok(()) => {}
        Err(_) => unreachable!(),
    }
}

/// Writes a name into a text that has room for it.
fn write_name(bytes: &mut Vec<u8>, name: &Name)
    requires { length name.now ≤ vec_capacity bytes.old }
    ensures value { bytes.new.items ≡ name.now }
    ensures name { IsName name.now }
{
    bytes.clear();
    append(bytes, name.as_bytes());
}

impl PackedName {
    /// The name without bytes, which takes no memory.
    pub fn none(alloc: Global) -> Self
        ensures { result ≡ [] }
    {
        PackedName {
            bytes: Vec::new(alloc),
        }
    }

    /// A copy of a name.
    pub fn of(alloc: Global, name: &Name) -> Result<Self, AllocError>
        ensures { IfOk result (λ n. n ≡ name.now) }
    {
        let bytes = name.as_bytes().to_vec(alloc)?;
        Ok(PackedName { bytes })
    }

    /// A copy of a name in a text that has room for it and gives back what isn't needed: no memory is taken.
    pub fn within(room: Vec<u8>, name: &Name) -> Self
        requires { length name.now ≤ vec_capacity room }
        ensures { result ≡ name.now }
    {
        let mut bytes = room;
        write_name(&mut bytes, name);
        bytes.shrink_to_fit();
        PackedName { bytes }
    }

    /// The same, in memory of its own.
    pub fn copy(&self, alloc: Global) -> Result<Self, AllocError>
        ensures { IfOk result (λ n. n ≡ self.now) }
    {
        let bytes = self.bytes.as_slice().to_vec(alloc)?;
        Ok(PackedName { bytes })
    }

    /// Its text.
    pub fn as_str(&self) -> &str
        ensures value { result.now ≡ self.now }
        ensures name { IsName self.now }
    {
        // The invariant says that the bytes are UTF-8.
        unsafe { str::from_utf8_unchecked(self.bytes.as_slice()) }
    }

    /// The name, in place.
    pub fn name(&self) -> Name
        ensures { result ≡ self.now }
    {
        name_of(self.bytes.as_slice())
    }
}

/// A copy of a name, where there is one.
pub fn packed_where(alloc: Global, name: &Option<Name>) -> Result<Option<PackedName>, AllocError>
    ensures { IfOk result (λ n. n ≡ name.now) }
{
    match name {
        Some(name) => Ok(Some(PackedName::of(alloc, name)?)),
        None => Ok(None),
    }
}

/// The name in place, where there is one.
pub fn name_where(name: &Option<PackedName>) -> Option<Name>
    ensures { result ≡ name.now }
{
    match name {
        Some(name) => Some(name.name()),
        None => None,
    }
}
