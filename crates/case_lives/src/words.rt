//! What a case is spelled in: words, numbers, lists and bytes.

use serde_json::Value;
use std::alloc::{AllocError, AllocFailed};
use thiserror::Error;

/// Why a case isn't read.
#[derive(Debug, Drop, Error)]
pub enum CaseFault {
    /// It isn't spelled as it is to be.
    #[error("not spelled as an act")]
    Spelling,
    /// There is no memory.
    #[error("no memory")]
    Memory,
}

impl From<AllocError> for CaseFault {
    fn from(_: AllocError) -> CaseFault {
        CaseFault::Memory
    }
}

impl<T: Drop> From<AllocFailed<T>> for CaseFault {
    fn from(_: AllocFailed<T>) -> CaseFault {
        CaseFault::Memory
    }
}

/// What stands at this place of an act.
pub fn part(act: &[Value], place: usize) -> Result<&Value, CaseFault> {
    match act.get(place) {
        Some(value) => Ok(value),
        None => Err(CaseFault::Spelling),
    }
}

/// What stands behind this place of an act.
pub fn behind(act: &[Value], place: usize) -> &[Value] {
    act.get(place..).unwrap_or(&[])
}

/// The word at this place of an act.
pub fn word(act: &[Value], place: usize) -> Result<&str, CaseFault> {
    match part(act, place)?.as_str() {
        Some(word) => Ok(word),
        None => Err(CaseFault::Spelling),
    }
}

/// The number at this place of an act.
pub fn number(act: &[Value], place: usize) -> Result<u64, CaseFault> {
    match part(act, place)?.as_u64() {
        Some(number) => Ok(number),
        None => Err(CaseFault::Spelling),
    }
}

/// The number at this place of an act, of something that is counted.
pub fn count(act: &[Value], place: usize) -> Result<usize, CaseFault> {
    match usize::try_from(number(act, place)?) {
        Ok(count) => Ok(count),
        Err(_) => Err(CaseFault::Spelling),
    }
}

/// The number at this place of an act, of a change or of a job.
pub fn small(act: &[Value], place: usize) -> Result<u16, CaseFault> {
    match u16::try_from(number(act, place)?) {
        Ok(small) => Ok(small),
        Err(_) => Err(CaseFault::Spelling),
    }
}

/// The number at this place of an act, of an attempt or of a code.
pub fn code(act: &[Value], place: usize) -> Result<u32, CaseFault> {
    match u32::try_from(number(act, place)?) {
        Ok(code) => Ok(code),
        Err(_) => Err(CaseFault::Spelling),
    }
}

/// The entries of a list.
pub fn entries(value: &Value) -> Result<&[Value], CaseFault> {
    match value.as_array() {
        Some(list) => Ok(list.as_slice()),
        None => Err(CaseFault::Spelling),
    }
}

/// The entries of the list at this place of an act.
pub fn list(act: &[Value], place: usize) -> Result<&[Value], CaseFault> {
    entries(part(act, place)?)
}

/// The truth at this place of an act.
pub fn truth(act: &[Value], place: usize) -> Result<bool, CaseFault> {
    match part(act, place)?.as_bool() {
        Some(truth) => Ok(truth),
        None => Err(CaseFault::Spelling),
    }
}

/// Puts the characters of a string, each as a byte, up to U+00FF.
pub fn put_bytes(into: &mut Vec<u8>, string: &str) -> Result<(), CaseFault> {
    for character in string.chars() {
        match u8::try_from(u32::from(character)) {
            Ok(byte) => into.push(byte)?,
            Err(_) => return Err(CaseFault::Spelling),
        }
    }
    Ok(())
}
