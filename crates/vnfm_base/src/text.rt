//! Texts: UTF-8 of any length, on the heap.
ghost use Rattle.std.specs.Prelude.{◌≡◌, ◌↔◌, IsTrue, IfOk, IsUtf8, [], length};
ghost use Rattle.std.specs.String.{string_bytes};

use std::alloc::Global;
use std::marker::Model;
use std::str;
use thiserror::Error;

/// A UTF-8 text of any length.
///
/// A contract sees its bytes as a list.
pub struct Text {
    text: String,
}

impl Drop for Text {
    // Written out, so that the proof of a caller calls it and doesn't take it apart at each of its ends.
    fn drop(self) {
        let Text { text: _ } = self;
    }
}

impl Model for Text {
    ghost use Rattle.std.specs.Prelude.{ℕ, List};
    ghost use Rattle.std.specs.String.{string_bytes};

    ghost Value = { List ℕ };

    ghost view = { λ t. string_bytes t.text };
}

/// Why there is no text.
#[derive(Debug, Drop, Error)]
pub enum TextFault {
    /// The bytes are no UTF-8.
    #[error("no UTF-8 text")]
    NotText,
    /// There is no memory for the text.
    #[error("no memory")]
    Memory,
}

impl Text {
    /// The text of these bytes.
    ///
    /// Refusals, in this order: `NotText` exactly where the bytes are no UTF-8; `Memory`.
    /// Source: own rule.
    pub fn of(alloc: Global, bytes: &[u8]) -> Result<Text, TextFault>
        ensures text { IfOk result (λ t. (t ≡ bytes.now) × IsUtf8 bytes.now) }
        ensures not_text { (result ≡ Err TextFault.NotText) ↔ ¬ (IsUtf8 bytes.now) }
    {
        let Ok(text) = str::from_utf8(bytes) else {
            return Err(TextFault::NotText);
        };
        match String::from_str(alloc, text) {
            Ok(text) => Ok(Text { text }),
            Err(_) => Err(TextFault::Memory),
        }
    }

    /// The text of this string, which is moved and not copied.
    pub fn of_string(text: String) -> Text
        ensures { result ≡ string_bytes text }
    {
        Text { text }
    }

    /// Its bytes.
    pub fn as_bytes(&self) -> &[u8]
        ensures value { result.now ≡ self.now }
        ensures text { IsUtf8 self.now }
    {
        self.text.as_str().as_bytes()
    }

    /// Itself, as std's text.
    pub fn as_str(&self) -> &str
        ensures value { result.now ≡ self.now }
        ensures text { IsUtf8 self.now }
    {
        self.text.as_str()
    }

    /// Its length in bytes.
    pub fn len(&self) -> usize
        ensures { result ≡ length self.now }
    {
        self.text.len()
    }

    /// Whether it has no byte.
    pub fn is_empty(&self) -> bool
        ensures { IsTrue result ↔ (self.now ≡ []) }
    {
        self.text.is_empty()
    }
}
