//! Lines: texts of at most 2,048 bytes, on the heap.
ghost use Rattle.std.specs.Prelude.{◌≡◌, ◌↔◌, IsTrue, IfOk, IsSome, IfSome, [], length, nat_eq};
ghost use Rattle.std.specs.Cmp.{partial_equiv_from_equiv};
ghost use Rattle.std.specs.Cmp.Lexicographic.{pointwise, nat_list_eq_equiv};
ghost use Rattle.std.specs.String.{string_bytes};
ghost use Rattle.vnfm_base.specs.Text.{IsLine};

use crate::plain::short_text;
use std::alloc::{AllocError, Global};
use std::marker::Model;
use thiserror::Error;

/// Bytes of the longest line.
pub const LINE_MAX: usize = 2_048;

/// A UTF-8 text of at most 2,048 bytes that holds no code point below 32 and no 127.
///
/// A contract sees its bytes as a list.
///
/// Source: own rule.
pub struct Line {
    text: String,
}

impl Drop for Line {
    // Written out, so that the proof of a caller calls it and doesn't take it apart at each of its ends.
    fn drop(self) {
        let Line { text: _ } = self;
    }
}

impl Model for Line {
    ghost use Rattle.std.specs.Prelude.{ℕ, List};
    ghost use Rattle.std.specs.String.{string_bytes};
    ghost use Rattle.vnfm_base.specs.Text.{IsLine};

    ghost Value = { List ℕ };

    ghost view = { λ l. string_bytes l.text };

    ghost invariant = { λ l. IsLine (string_bytes l.text) };
}

/// Why there is no line.
#[derive(Debug, Drop, Error)]
pub enum LineFault {
    /// The bytes are no line.
    #[error("no line of text")]
    NotLine,
    /// There is no memory for the line.
    #[error("no memory")]
    Memory,
}

impl Line {
    /// The line of these bytes.
    ///
    /// Refusals, in this order: `NotLine` exactly where the bytes are no line; `Memory`.
    /// Source: own rule.
    pub fn of(alloc: Global, bytes: &[u8]) -> Result<Line, LineFault>
        ensures line { IfOk result (λ l. (l ≡ bytes.now) × IsLine bytes.now) }
        ensures not_line { (result ≡ Err LineFault.NotLine) ↔ ¬ (IsLine bytes.now) }
    {
        let Some(text) = short_text(bytes, LINE_MAX) else {
            return Err(LineFault::NotLine);
        };
        match String::from_str(alloc, text) {
            Ok(text) => Ok(Line { text }),
            Err(_) => Err(LineFault::Memory),
        }
    }

    /// The line of this text, which is moved and not copied; `None` exactly where it is none.
    ///
    /// Source: own rule.
    pub fn of_string(text: String) -> Option<Line>
        ensures line { IsSome result ↔ IsLine (string_bytes text) }
        ensures value { IfSome result (λ l. l ≡ string_bytes text) }
    {
        short_text(text.as_bytes(), LINE_MAX)?;
        Some(Line { text })
    }

    /// Its bytes.
    pub fn as_bytes(&self) -> &[u8]
        ensures value { result.now ≡ self.now }
        ensures line { IsLine self.now }
    {
        self.text.as_bytes()
    }

    /// Its text.
    pub fn as_str(&self) -> &str
        ensures value { result.now ≡ self.now }
        ensures line { IsLine self.now }
    {
        self.text.as_str()
    }

    /// Its length in bytes.
    pub fn len(&self) -> usize
        ensures value { result ≡ length self.now }
        ensures line { IsLine self.now }
    {
        self.text.len()
    }

    /// Whether it has no byte.
    pub fn is_empty(&self) -> bool
        ensures { IsTrue result ↔ (self.now ≡ []) }
    {
        self.text.is_empty()
    }
}

impl Clone for Line {
    ghost is_clone = { λ a b. b ≡ a };

    fn clone(&self) -> Result<Line, AllocError> {
        let text = self.text.clone()?;
        Ok(Line { text })
    }
}

impl PartialEq for Line {
    ghost eq = { pointwise nat_eq };

    ghost laws = { partial_equiv_from_equiv nat_list_eq_equiv };

    fn eq(&self, other: &Line) -> bool {
        self.as_bytes() == other.as_bytes()
    }
}

impl Eq for Line {
    ghost laws = { nat_list_eq_equiv };
}
