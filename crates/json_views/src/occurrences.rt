//! The view of the occurrences, of the greatest numbers.
ghost use Rattle.std.specs.Prelude.{◌≡◌, ◌<◌, IfOk, OnOk, length, option_copied, slice_get};
ghost use Rattle.serde_json.specs.View.{view};
ghost use Rattle.json_members.specs.Text.{with_value};
ghost use Rattle.json_views.specs.Occurrences.{AreOfLegal, CanOccurrencesBeShown, IsOccurrenceShowable, occurrence_row};
ghost use Rattle.json_views.specs.Occurrences.{occurrences_text, occurrences_value};

use crate::occurrence::occurrence_shown;
use instance_table::InstanceTable;
use json_members::JsonText;
use occ_table::{OccRow, OccTable};
use serde_json::Value;
use std::alloc::{AllocError, Global};
use vnfm_base::Bytes;

/// Occurrences that a list shows at most, of those with the greatest numbers.
pub const MAX_LISTED: u64 = 10_000;

/// The views of the occurrences of the 10,000 greatest numbers, in the order of their numbers, each with the descriptor
/// that its row names. The time is linear in what is told, but for the search of each row's descriptor among at most
/// 256. Of the views there is one at a time, beside the text.
///
/// Condition: the tables are those of a legal history, each number is one of an identifier, and each descriptor was
/// onboarded, as
/// `legal_occurrences_can_be_shown` says of the tables of each legal history.
/// Source: SOL 003 5.4.12.3.2 (GET on VNF LCM operation occurrences); the limit is an own one, docs/FORMATS.md.
#[tactic(auto, unfolding(crate::specs::Occurrences::occurrences_text))]
pub fn occurrences_view(
    alloc: Global,
    manager: u32,
    instances: &InstanceTable,
    occurrences: &OccTable,
) -> Result<Bytes, AllocError>
    requires { CanOccurrencesBeShown instances.now.rows occurrences.now.rows }
    ensures { IfOk result (λ body. body ≡ occurrences_text manager instances.now.rows occurrences.now.rows) }
{
    let mut text = JsonText::new(alloc);
    write_occurrences(&mut text, alloc, manager, instances, occurrences)?;
    Ok(text.into_bytes())
}

/// Writes the occurrences that are listed, one after another.
fn write_occurrences(
    text: &mut JsonText,
    alloc: Global,
    manager: u32,
    instances: &InstanceTable,
    occurrences: &OccTable,
) -> Result<(), AllocError>
    requires { CanOccurrencesBeShown instances.now.rows occurrences.now.rows }
    ensures { OnOk result (text.new
        ≡ with_value (occurrences_value manager instances.now.rows occurrences.now.rows) text.old) }
{
    let made = made_in(occurrences);
    text.begin_array()?;
    for place in made.saturating_sub(MAX_LISTED)..made {
        match row_at(occurrences, place) {
            Some(row) => write_entry(text, alloc, manager, instances, place + 1, row)?,
            None => {}
        }
    }
    text.end_array()
}

/// How many rows there are.
fn made_in(occurrences: &OccTable) -> u64
    requires { AreOfLegal occurrences.now.rows }
    ensures { result ≡ length occurrences.now.rows }
{
    occurrences.made()
}

/// The row at this place, from 0.
fn row_at(occurrences: &OccTable, place: u64) -> Option<&OccRow>
    requires legal { AreOfLegal occurrences.now.rows }
    requires there { place < length occurrences.now.rows }
    requires small { place < 18446744073709551615 }
    ensures { option_copied result ≡ slice_get occurrences.now.rows place }
{
    occurrences.occurrence(place + 1)
}

/// Writes the view of occurrence `n`, with the descriptor that its row names. Once it is written its value is let go.
fn write_entry(
    text: &mut JsonText,
    alloc: Global,
    manager: u32,
    instances: &InstanceTable,
    n: u64,
    row: &OccRow,
) -> Result<(), AllocError>
    requires { IsOccurrenceShowable instances.now.rows n row.now }
    ensures { OnOk result (text.new ≡ with_value (occurrence_row manager instances.now.rows n row.now) text.old) }
{
    let value = entry(alloc, manager, instances, n, row)?;
    text.value(alloc, &value)
}

/// The view of occurrence `n`, with the descriptor that its row names.
fn entry(
    alloc: Global,
    manager: u32,
    instances: &InstanceTable,
    n: u64,
    row: &OccRow,
) -> Result<Value, AllocError>
    requires { IsOccurrenceShowable instances.now.rows n row.now }
    ensures { IfOk result (λ value. view value ≡ occurrence_row manager instances.now.rows n row.now) }
{
    match instances.vnfd(&row.vnfd.name()) {
        Some(vnfd) => occurrence_shown(alloc, manager, n, row, vnfd),
        // The row of each occurrence names a descriptor that was onboarded.
        None => unreachable!(),
    }
}
