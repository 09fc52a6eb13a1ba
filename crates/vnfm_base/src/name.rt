//! Names: texts of at most 255 bytes, kept in place, so that copying one takes no memory.
ghost use Rattle.std.specs.Prelude.{◌≡◌, ◌↔◌, IsTrue, IsSome, IfSome, Some, ◌≤◌, [], ◌++◌, length, drop, nat_eq};
ghost use Rattle.std.specs.Ordering.{nat_cmp};
ghost use Rattle.std.specs.Cmp.{on_equiv, on_total, on_po, on_per, partial_equiv_from_equiv};
ghost use Rattle.std.specs.Cmp.Lexicographic.{pointwise, slice_cmp, nat_list_eq_equiv, nat_list_cmp_total, texts_po};
ghost use Rattle.std.specs.Cmp.Lexicographic.{texts_ties};
ghost use Rattle.std.proofs.Common.{refl};
ghost use Rattle.vnfm_base.specs.Text.{IsName};

use crate::plain::short_text;
use std::cmp::Ordering;
use std::marker::Model;
use std::{fmt, str};

/// Bytes of the longest name.
pub const NAME_MAX: usize = 255;

/// A UTF-8 text of at most 255 bytes that holds no code point below 32 and no 127.
///
/// A contract sees its bytes as a list.
///
/// Source: own rule.
#[derive(Clone, Copy)]
pub struct Name {
    len: u8,
    room: [u8; NAME_MAX],
}

impl Model for Name {
    ghost use Rattle.std.specs.Prelude.{ℕ, List, ◌-◌, ◌++◌, length, take, replicate};
    ghost use Rattle.vnfm_base.specs.Text.{HoldsName, HoldsName-room};

    ghost Value = { List ℕ };

    ghost view = { λ n. take n.len n.room };

    ghost invariant = { λ n. HoldsName n.len n.room };

    ghost inverse = { λ text. record { len = length text; room = text ++ replicate (255 - length text) 0 } };

    ghost inverse_ok = { λ n h i. record { len = h.len_is i; room = HoldsName-room n.len n.room h i } };
}

impl Name {
    /// The name of these bytes; `None` exactly where they are none.
    ///
    /// Source: own rule.
    pub fn of(bytes: &[u8]) -> Option<Name>
        ensures name { IsSome result ↔ IsName bytes.now }
        ensures value { IfSome result (λ n. n ≡ bytes.now) }
    {
        let text = short_text(bytes, NAME_MAX)?;
        let mut room = [0; NAME_MAX];
        put_front(&mut room, text.as_bytes());
        Some(Name {
            len: text.len() as u8,
            room,
        })
    }

    /// Its bytes.
    pub fn as_bytes(&self) -> &[u8]
        ensures value { result.now ≡ self.now }
        ensures name { IsName self.now }
    {
        &self.room[..self.len as usize]
    }

    /// Its text.
    pub fn as_str(&self) -> &str
        ensures value { result.now ≡ self.now }
        ensures name { IsName self.now }
    {
        // The invariant says that the bytes are UTF-8.
        unsafe { str::from_utf8_unchecked(self.as_bytes()) }
    }

    /// Its length in bytes.
    pub fn len(&self) -> usize
        ensures value { result ≡ length self.now }
        ensures name { IsName self.now }
    {
        self.len as usize
    }

    /// Whether it has no byte.
    pub fn is_empty(&self) -> bool
        ensures { IsTrue result ↔ (self.now ≡ []) }
    {
        self.len == 0
    }
}

/// Writes the bytes over the front of the room.
fn put_front(room: &mut [u8], bytes: &[u8])
    requires { length bytes.now ≤ length room.old }
    ensures { room.new ≡ bytes.now ++ drop (length bytes.now) room.old }
{
    room[..bytes.len()].copy_from_slice(bytes);
}

impl PartialEq for Name {
    ghost eq = { pointwise nat_eq };

    ghost laws = { partial_equiv_from_equiv nat_list_eq_equiv };

    fn eq(&self, other: &Name) -> bool {
        self.as_bytes() == other.as_bytes()
    }
}

impl Eq for Name {
    ghost laws = { nat_list_eq_equiv };
}

/// By bytes.
impl PartialOrd for Name {
    ghost partial_cmp = { λ a b. Some (slice_cmp nat_cmp a b) };

    ghost laws = { texts_po };

    fn partial_cmp(&self, other: &Name) -> Option<Ordering> {
        Some(self.cmp(other))
    }
}

/// By bytes.
impl Ord for Name {
    ghost cmp = { slice_cmp nat_cmp };

    ghost total = { nat_list_cmp_total };

    ghost matches_partial_cmp = { λ a b. refl };

    ghost matches_eq = { λ a b. texts_ties a b };

    fn cmp(&self, other: &Name) -> Ordering {
        self.as_bytes().cmp(&other.as_bytes())
    }
}

impl fmt::Debug for Name {
    fn fmt<W: fmt::Write>(&self, f: &mut fmt::Formatter<W>) -> fmt::Result {
        fmt::Debug::fmt(&self.as_str(), f)
    }
}
