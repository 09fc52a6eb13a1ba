//! The file of a site in memory: what calls make of it, and what a stop leaves of it.

ghost use Rattle.std.specs.Prelude.{◌≡◌, ◌≤◌, ◌+◌, ℕ, List, length, take, IfOk, OnOk, vec_capacity};
ghost use Rattle.site_traits.specs.Disk.{change_by, overlaid, put_over, chosen, clip, left_after};

use crate::past::SiteCall;
use std::alloc::{AllocError, Global};

/// What a stop leaves of the writes and cuts that are not synced.
#[derive(Clone, Copy)]
pub enum Choice {
    /// The file before them.
    Old,
    /// The file after them.
    New,
    /// The file after them, with the byte a5 in each written range.
    Torn,
}

// One call more on what a read gives and on what a stop leaves by this choice.
pub fn one_call(
    alloc: Global,
    seen: &mut Vec<u8>,
    left: &mut Vec<u8>,
    choice: Choice,
    call: SiteCall,
    bytes: &[u8],
) -> Result<(), AllocError>
    ensures seen { OnOk result (seen.new.items ≡ chosen Choice.New
        (clip (length seen.old.items) (change_by call bytes.now)) seen.old.items) }
    ensures left { OnOk result (left.new.items ≡ left_after choice
        (change_by call bytes.now) seen.old.items left.old.items) }
{
    if let SiteCall::Synced = call {
        *left = seen.to_vec(alloc)?;
        return Ok(());
    }
    let call = clipped(call, seen.len());
    chosen_change(alloc, left, choice, call, bytes)?;
    chosen_change(alloc, seen, Choice::New, call, bytes)
}

// The call with its place within so many bytes.
fn clipped(call: SiteCall, len: usize) -> SiteCall
    ensures { (bytes : List ℕ) → change_by result bytes ≡ clip len (change_by call bytes) }
{
    match call {
        SiteCall::Wrote { at } => SiteCall::Wrote {
            at: at.min(len as u64),
        },
        other => other,
    }
}

// Does to the file what this choice makes of this call.
fn chosen_change(
    alloc: Global,
    file: &mut Vec<u8>,
    choice: Choice,
    call: SiteCall,
    bytes: &[u8],
) -> Result<(), AllocError>
    ensures { OnOk result (file.new.items ≡ chosen choice (change_by call bytes.now) file.old.items) }
{
    match choice {
        Choice::Old => Ok(()),
        Choice::New => new_change(file, call, bytes),
        Choice::Torn => {
            let torn = vec![in alloc; 165; bytes.len()]?;
            new_change(file, call, &torn)
        }
    }
}

// Does to the file what this call did.
fn new_change(file: &mut Vec<u8>, call: SiteCall, bytes: &[u8]) -> Result<(), AllocError>
    ensures { OnOk result (file.new.items ≡ chosen Choice.New (change_by call bytes.now) file.old.items) }
{
    match call {
        SiteCall::Wrote { at } => put_at(file, at, bytes),
        SiteCall::Cut { to } => {
            cut_to(file, to);
            Ok(())
        }
        _ => Ok(()),
    }
}

// Puts these bytes at this place, where it lies within the file.
fn put_at(file: &mut Vec<u8>, at: u64, bytes: &[u8]) -> Result<(), AllocError>
    ensures { OnOk result (file.new.items ≡ put_over file.old.items at bytes.now) }
{
    if at > file.len() as u64 {
        return Ok(());
    }
    let room = bytes.len();
    file.reserve(room)?;
    overlay(file, at as usize, bytes);
    Ok(())
}

// Cuts the file to this length.
fn cut_to(file: &mut Vec<u8>, to: u64)
    ensures { file.new.items ≡ take to file.old.items }
{
    let place = to.min(file.len() as u64) as usize;
    file.truncate(place);
}

// A copy of these bytes with room for so many.
pub fn copied_into(alloc: Global, room: usize, bytes: &[u8]) -> Result<Vec<u8>, AllocError>
    ensures items { IfOk result (λ copy. copy.items ≡ bytes.now) }
    ensures room { IfOk result (λ copy. room ≤ vec_capacity copy) }
{
    let mut copy = Vec::with_capacity(alloc, room)?;
    copy.extend_from_slice(bytes)?;
    Ok(copy)
}

// Puts these bytes at this place, within the room.
pub fn overlay(file: &mut Vec<u8>, at: usize, bytes: &[u8])
    requires within { at ≤ length file.old.items }
    requires room { at + length bytes.now ≤ vec_capacity file.old }
    ensures items { file.new.items ≡ overlaid file.old.items at bytes.now }
    ensures capacity { vec_capacity file.old ≤ vec_capacity file.new }
{
    let end = at + bytes.len();
    if end <= file.len() {
        file[at..end].copy_from_slice(bytes);
        return;
    }
    file.truncate(at);
    if file.extend_from_slice(bytes).is_err() {
        unreachable!();
    }
}
