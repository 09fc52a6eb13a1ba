//! Members whose value is a whole number, or a list of values of one form.
ghost use Rattle.std.specs.List.{filter_map, list_all};
ghost use Rattle.std.specs.Prelude.{◌≡◌, IfErr, IfOk, IsSome, false, is_some, true};
ghost use Rattle.serde_json.specs.View.{items_view, view};
ghost use Rattle.json_bodies.specs.Forms.{each_in, items_in, list_in, whole_in};

use crate::forms::Form;
use lcm_events::Listed;
use serde_json::Value;
use std::alloc::{AllocError, Global};

/// A whole number to 4,294,967,295.
pub struct WholeNumber {}

impl Form<u32> for WholeNumber {
    ghost says = { λ f d. whole_in d };

    ghost asks_memory = { λ f. false };

    fn fits(&self, value: &Value) -> bool {
        whole_in(value).is_some()
    }

    fn read(&self, _alloc: Global, value: &Value) -> Result<Option<u32>, AllocError> {
        Ok(whole_in(value))
    }
}

fn whole_in(value: &Value) -> Option<u32>
    ensures { result ≡ whole_in (view value.now) }
{
    let number = value.as_u64()?;
    if number <= u32::MAX as u64 {
        Some(number as u32)
    } else {
        None
    }
}

/// A list of at most so many values of one form.
#[derive(Drop)]
pub struct ListOf<F> {
    pub most: usize,
    pub entry: F,
}

impl<T: Drop, F: Form<T>> Form<Listed<T>> for ListOf<F> {
    ghost says = { λ f d. list_in f.most (F.says f.entry) d };

    ghost asks_memory = { λ f. true };

    fn fits(&self, value: &Value) -> bool {
        match value.as_array() {
            Some(values) => values.len() <= self.most && all_fit(values.as_slice(), &self.entry),
            None => false,
        }
    }

    fn read(&self, alloc: Global, value: &Value) -> Result<Option<Listed<T>>, AllocError> {
        if !self.fits(value) {
            return Ok(None);
        }
        match value.as_array() {
            Some(values) => each_in(alloc, values.as_slice(), &self.entry),
            None => Ok(None),
        }
    }
}

/// Whether each value has the form.
fn all_fit<T, F: Form<T>>(values: &[Value], form: &F) -> bool
    ensures { result ≡ list_all (λ d. is_some (F.says form.now d)) (items_in (items_view values.now)) }
{
    for value in values {
        if !form.fits(value) {
            return false;
        }
    }
    true
}

/// What each value says by the form, where all have it, in a list with just the room.
fn each_in<T: Drop, F: Form<T>>(
    alloc: Global,
    values: &[Value],
    form: &F,
) -> Result<Option<Listed<T>>, AllocError>
    ensures { IfOk result (λ said. said ≡ each_in (F.says form.now) (items_in (items_view values.now))) }
{
    let mut said = Vec::with_capacity(alloc, values.len())?;
    for value in values {
        match form.read(alloc, value)? {
            Some(one) => said.push(one)?,
            None => return Ok(None),
        }
    }
    Ok(Some(Listed::of(said)))
}
