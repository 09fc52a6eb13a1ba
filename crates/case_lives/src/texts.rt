//! The bytes that runs ask with and compare with, and their names.
//!
//! A text is spelled as a string, whose characters are bytes, up to U+00FF; as `$` and a name; as an object; or as an
//! array of these, one behind the other. `{"times": N, "of": T}` is T so many times; `{"from": A, "to": B, "of": [..]}`
//! is what stands there for each number from A to before B, where `{"digits": W}` are its decimal digits, W with zeros
//! in front, and `{"bytes": W}` its last W bytes, the greatest first.

use crate::words::{CaseFault, entries, put_bytes};
use serde_json::Value;
use std::alloc::{AllocError, Global};

/// A text with a name.
struct Named {
    name: String,
    text: Vec<u8>,
}

impl Drop for Named {
    // Written out, so that the proof of a caller calls it and doesn't take the value apart at each of its ends.
    fn drop(self) {
        let Named { name: _, text: _ } = self;
    }
}

/// The texts that have a name.
pub struct Names {
    all: Vec<Named>,
}

impl Drop for Names {
    // Written out, so that the proof of a caller calls it and doesn't take the value apart at each of its ends.
    fn drop(self) {
        let Names { all: _ } = self;
    }
}

impl Names {
    /// No text has a name.
    pub fn new(alloc: Global) -> Names {
        Names {
            all: Vec::new(alloc),
        }
    }

    /// The text that has this name; the last one, where several were given it.
    fn get(&self, name: &str) -> Result<&[u8], CaseFault> {
        let mut place = self.all.len();
        for _ in 0..self.all.len() {
            place = place.saturating_sub(1);
            if let Some(named) = self.all.get(place) {
                if named.name.as_str() == name {
                    return Ok(named.text.as_slice());
                }
            }
        }
        Err(CaseFault::Spelling)
    }

    /// Gives this text a name.
    pub fn put(&mut self, alloc: Global, name: &str, text: Vec<u8>) -> Result<(), AllocError> {
        let name = String::from_str(alloc, name)?;
        self.all.push(Named { name, text })?;
        Ok(())
    }

    /// The text that is spelled so.
    pub fn text(&self, alloc: Global, value: &Value) -> Result<Vec<u8>, CaseFault> {
        let mut text = Vec::new(alloc);
        self.put_text(&mut text, value)?;
        Ok(text)
    }

    /// Puts the text that is spelled so.
    fn put_text(&self, into: &mut Vec<u8>, value: &Value) -> Result<(), CaseFault> {
        match value.as_array() {
            Some(parts) => {
                for part in parts {
                    self.put_part(into, part)?;
                }
                Ok(())
            }
            None => self.put_part(into, value),
        }
    }

    /// Puts a string, or what an object says.
    fn put_part(&self, into: &mut Vec<u8>, part: &Value) -> Result<(), CaseFault> {
        match part.as_str() {
            Some(string) => self.put_string(into, string),
            None => self.put_often(into, part),
        }
    }

    /// Puts the text of this name, or these bytes.
    fn put_string(&self, into: &mut Vec<u8>, string: &str) -> Result<(), CaseFault> {
        match string.strip_prefix("$") {
            Some(name) => Ok(into.extend_from_slice(self.get(name)?)?),
            None => put_bytes(into, string),
        }
    }

    /// Puts what the object says: a text so many times, or once for each number.
    fn put_often(&self, into: &mut Vec<u8>, object: &Value) -> Result<(), CaseFault> {
        let Some(of) = object.get("of") else {
            return Err(CaseFault::Spelling);
        };
        match member(object, "times") {
            Some(times) => self.put_times(into, of, times),
            None => self.put_counted(into, object, of),
        }
    }

    /// Puts the string so many times.
    fn put_times(&self, into: &mut Vec<u8>, of: &Value, times: u64) -> Result<(), CaseFault> {
        let Some(string) = of.as_str() else {
            return Err(CaseFault::Spelling);
        };
        for _ in 0..times {
            self.put_string(into, string)?;
        }
        Ok(())
    }

    /// Puts what stands there for each number.
    fn put_counted(&self, into: &mut Vec<u8>, object: &Value, of: &Value) -> Result<(), CaseFault> {
        let (Some(from), Some(to)) = (member(object, "from"), member(object, "to")) else {
            return Err(CaseFault::Spelling);
        };
        let parts = entries(of)?;
        for number in from..to {
            self.put_numbered(into, parts, number)?;
        }
        Ok(())
    }

    /// Puts these parts for this number.
    fn put_numbered(
        &self,
        into: &mut Vec<u8>,
        parts: &[Value],
        number: u64,
    ) -> Result<(), CaseFault> {
        for part in parts {
            match part.as_str() {
                Some(string) => self.put_string(into, string)?,
                None => put_number(into, part, number)?,
            }
        }
        Ok(())
    }
}

/// The number of this member.
fn member(object: &Value, name: &str) -> Option<u64> {
    object.get(name)?.as_u64()
}

/// Puts the digits or the bytes of a number.
fn put_number(into: &mut Vec<u8>, object: &Value, number: u64) -> Result<(), CaseFault> {
    match (member(object, "digits"), member(object, "bytes")) {
        (Some(width), None) => put_digits(into, number, width),
        (None, Some(width)) => put_last_bytes(into, number, width),
        _ => Err(CaseFault::Spelling),
    }
}

/// Puts so many decimal digits of a number, of which the first may be zeros.
fn put_digits(into: &mut Vec<u8>, number: u64, width: u64) -> Result<(), CaseFault> {
    for place in 0..width {
        let mut left = number;
        for _ in place.saturating_add(1)..width {
            left /= 10;
        }
        into.push(b'0'.saturating_add(u8::try_from(left % 10).unwrap_or(0)))?;
    }
    Ok(())
}

/// Puts the last so many bytes of a number.
fn put_last_bytes(into: &mut Vec<u8>, number: u64, width: u64) -> Result<(), CaseFault> {
    let bytes = number.to_be_bytes();
    let first = 8usize.saturating_sub(usize::try_from(width).unwrap_or(8));
    Ok(into.extend_from_slice(bytes.get(first..).unwrap_or(&bytes))?)
}
