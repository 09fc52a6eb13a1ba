//! The text of a JSON value, made part by part, so that no value is there as a whole.
ghost use Rattle.std.specs.Prelude.{◌≡◌, ◌<◌, ◌++◌, IsUtf8, OnErr, OnOk, false};
ghost use Rattle.serde_json.specs.Data.{string};
ghost use Rattle.serde_json.specs.View.{view};
ghost use Rattle.serde_json.specs.Written.{comma_if, has_float};
ghost use Rattle.json_members.specs.Text.{closed, nothing_written, opened, with_member, with_name, with_part, with_value};

use crate::text_value;
use serde_json::Value;
use std::alloc::{AllocError, Global};
use std::marker::Model;
use vnfm_base::Bytes;

/// The text of a JSON value, without white space, as far as it is made. Its caller nests arrays and objects; the commas
/// are put where they belong. Where there is no memory for a part, the text is of no further use.
///
/// A contract sees what is written, and whether a value ended there.
///
/// Source: RFC 8259 2.
pub struct JsonText {
    text: Vec<u8>,
    after_value: bool,
}

impl Drop for JsonText {
    // Written out, so that the proof of a caller calls it and doesn't take the value apart at each of its ends.
    fn drop(self) {
        let JsonText {
            text: _,
            after_value: _,
        } = self;
    }
}

impl Model for JsonText {
    ghost use Rattle.std.specs.Prelude.{IsUtf8};
    ghost use Rattle.json_members.specs.Text.{TextSoFar};

    ghost Value = { TextSoFar };

    ghost view = { λ t. record { text = t.text.items; after_value = t.after_value } };

    ghost invariant = { λ t. IsUtf8 t.text.items };
}

impl JsonText {
    /// Nothing is written; takes no memory.
    pub fn new(alloc: Global) -> JsonText
        ensures { result ≡ nothing_written }
    {
        JsonText {
            text: Vec::new(alloc),
            after_value: false,
        }
    }

    /// Writes a value that has no float: an entry of an array, the value behind a name, or the whole.
    ///
    /// Source: RFC 8259 3.
    pub fn value(&mut self, alloc: Global, value: &Value) -> Result<(), AllocError>
        requires { has_float (view value.now) ≡ false }
        ensures { OnOk result (self.new ≡ with_value (view value.now) self.old) }
    {
        let part = value.to_vec(alloc)?;
        self.part(part.as_slice(), true)
    }

    /// Writes the name of a member, whose value is written next.
    ///
    /// Source: RFC 8259 4.
    pub fn name(&mut self, alloc: Global, name: &str) -> Result<(), AllocError>
        ensures { OnOk result (self.new ≡ with_name name.now self.old) }
    {
        let name = text_value(alloc, name)?;
        let mut part = name.to_vec(alloc)?;
        part.push(b':')?;
        self.part(part.as_slice(), false)
    }

    /// Writes a member: its name, and its value, which has no float.
    ///
    /// Source: RFC 8259 4.
    pub fn member(&mut self, alloc: Global, name: &str, value: &Value) -> Result<(), AllocError>
        requires { has_float (view value.now) ≡ false }
        ensures { OnOk result (self.new ≡ with_member name.now (view value.now) self.old) }
    {
        self.name(alloc, name)?;
        self.value(alloc, value)
    }

    /// Writes a member whose value is a text.
    ///
    /// Source: RFC 8259 4.
    pub fn text_member(&mut self, alloc: Global, name: &str, text: &str) -> Result<(), AllocError>
        ensures { OnOk result (self.new ≡ with_member name.now (string text.now) self.old) }
    {
        let value = text_value(alloc, text)?;
        self.member(alloc, name, &value)
    }

    /// Begins an array. Its entries are written next, one by one, and then its end.
    ///
    /// Source: RFC 8259 5.
    pub fn begin_array(&mut self) -> Result<(), AllocError>
        ensures { OnOk result (self.new ≡ opened 91 self.old) }
    {
        self.part(b"[", false)
    }

    /// Ends the array that was begun last.
    ///
    /// Source: RFC 8259 5.
    pub fn end_array(&mut self) -> Result<(), AllocError>
        ensures { OnOk result (self.new ≡ closed 93 self.old) }
    {
        self.end(b']')
    }

    /// Begins an object. Its members are written next, each by its name and its value, and then its end.
    ///
    /// Source: RFC 8259 4.
    pub fn begin_object(&mut self) -> Result<(), AllocError>
        ensures { OnOk result (self.new ≡ opened 123 self.old) }
    {
        self.part(b"{", false)
    }

    /// Ends the object that was begun last.
    ///
    /// Source: RFC 8259 4.
    pub fn end_object(&mut self) -> Result<(), AllocError>
        ensures { OnOk result (self.new ≡ closed 125 self.old) }
    {
        self.end(b'}')
    }

    /// What was written, moved and not copied.
    pub fn into_bytes(self) -> Bytes
        ensures text { result ≡ self.text }
        ensures utf8 { IsUtf8 result }
    {
        let JsonText {
            text,
            after_value: _,
        } = self;
        Bytes::of_vec(text)
    }

    /// Writes a part, behind a comma where a value ended before it.
    fn part(&mut self, part: &[u8], ends_value: bool) -> Result<(), AllocError>
        requires { IsUtf8 part.now }
        ensures { OnOk result (self.new ≡ with_part part.now ends_value self.old) }
    {
        put_comma(&mut self.text, self.after_value)?;
        self.text.extend_from_slice(part)?;
        self.after_value = ends_value;
        Ok(())
    }

    /// Writes a bracket that ends a value.
    fn end(&mut self, bracket: u8) -> Result<(), AllocError>
        requires { bracket < 128 }
        ensures { OnOk result (self.new ≡ closed bracket self.old) }
    {
        self.text.push(bracket)?;
        self.after_value = true;
        Ok(())
    }
}

/// Puts a comma where a value ended.
fn put_comma(text: &mut Vec<u8>, after_value: bool) -> Result<(), AllocError>
    ensures put { OnOk result (text.new.items ≡ text.old.items ++ comma_if after_value) }
    ensures kept { OnErr result (text.new.items ≡ text.old.items) }
{
    if after_value {
        text.push(b',')?;
    }
    Ok(())
}
