//! The next action of an active occurrence, by its row.
ghost use Rattle.std.specs.Prelude.{◌≡◌, ◌<◌, ℕ, false, length, slice_index_or};
ghost use Rattle.occ_table.specs.Steps.{has_open_at, is_forced_mode};
ghost use Rattle.lcm_model.specs.Next.{end_of};
ghost use Rattle.occ_steps.specs.Steps.{IsWorkable, action_of, asking_by_row, begin_tag, busy_in, first_tag};
ghost use Rattle.occ_steps.specs.Steps.{goes_on_row, is_stopped_row, leaving_by_row, next_at, next_by_row, next_tag};
ghost use Rattle.occ_steps.specs.Steps.{working_by_row};

use change_planner::next_free;
use lcm_events::{CancelMode, OpState, Tag, Way};
use lcm_tables::WINDOW;
use occ_table::{OccRow, Pending};
use rollback_plan::next_free_undo;

/// Changes of an occurrence at most, so that which of them are busy lies on the stack.
const MAX_CHANGES: usize = 5_000;

/// The next action of an active occurrence.
#[derive(Clone, Copy)]
pub enum Step {
    /// Move to this state.
    Move(OpState),
    /// Poll the location that was told.
    Poll,
    /// Ask for the grant.
    Ask,
    /// Begin this attempt.
    Begin(Tag),
    /// Look at this attempt.
    Look(Tag),
    /// Abort the open attempts, and then look at this one, which began first.
    AbortAndLook(Tag),
}

/// Whether a FORCEFUL cancel is in force.
fn is_forced(row: &OccRow) -> bool
    ensures { result ≡ is_forced_mode row.now.cancel }
{
    matches!(row.cancel, Some(CancelMode::Forceful))
}

/// The next action while the grant is asked for.
fn asking_step(row: &OccRow) -> Step
    ensures { action_of result ≡ asking_by_row row.now }
{
    let granted = row.grant.is_some();
    if is_forced(row) || (row.ended && !granted) || (granted && row.cancel.is_some()) {
        Step::Move(OpState::RolledBack)
    } else if granted {
        Step::Move(OpState::Processing)
    } else if row.location.is_some() {
        Step::Poll
    } else {
        Step::Ask
    }
}

/// At which changes one of these attempts is open.
fn busy_by(pending: &[Pending]) -> [bool; MAX_CHANGES]
    ensures length { length result ≡ MAX_CHANGES }
    ensures busy { (c : ℕ) → c < length result → slice_index_or result c false ≡ has_open_at c pending.now }
{
    let mut busy = [false; MAX_CHANGES];
    for attempt in pending {
        let change = attempt.tag.change as usize;
        if change < MAX_CHANGES {
            busy[change] = true;
        }
    }
    busy
}

/// The change that is attempted next in this way.
fn next_at(row: &OccRow, way: Way) -> Option<usize>
    requires { IsWorkable row.now }
    ensures { result ≡ next_at way row.now }
{
    let changes = row.changes.as_slice();
    let nets = row.nets.as_slice();
    let flags = busy_by(row.pending.as_slice());
    let busy = &flags[..changes.len()];
    match way {
        Way::Forward => next_free(changes, nets, busy),
        Way::Undo => next_free_undo(changes, nets, busy),
    }
}

/// The tag of the next attempt in this way at a change.
fn next_tag(row: &OccRow, occ: u64, way: Way, change: usize) -> Tag
    requires workable { IsWorkable row.now }
    requires known { change < length row.now.changes }
    ensures { result ≡ next_tag occ way row.now change }
{
    let attempts = match row.attempts.as_slice().get(change) {
        Some(attempts) => *attempts,
        None => 0,
    };
    Tag {
        occ,
        change: change as u16,
        attempt: attempts + 1,
        way,
    }
}

/// Whether there is trouble since the last move, or a cancel in force.
fn is_stopped(row: &OccRow) -> bool
    ensures { result ≡ is_stopped_row row.now }
{
    row.trouble || row.cancel.is_some()
}

/// Whether one more attempt may begin.
fn goes_on(row: &OccRow) -> bool
    ensures { result ≡ goes_on_row row.now }
{
    !is_stopped(row) && row.pending.len() < WINDOW
}

/// The tag of the open attempt that began first.
fn first_tag(row: &OccRow) -> Option<Tag>
    ensures { result ≡ first_tag row.now }
{
    row.pending.as_slice().first().map(|pending| pending.tag)
}

/// The tag of the attempt in this way that may begin next.
fn begin_tag(row: &OccRow, occ: u64, way: Way) -> Option<Tag>
    requires { IsWorkable row.now }
    ensures { result ≡ begin_tag occ way row.now }
{
    if !goes_on(row) {
        return None;
    }
    let change = next_at(row, way)?;
    Some(next_tag(row, occ, way, change))
}

/// The state that is left for, once no change is left for an attempt in this way.
fn end_of(way: Way) -> OpState
    ensures { result ≡ end_of way }
{
    match way {
        Way::Forward => OpState::Completed,
        Way::Undo => OpState::RolledBack,
    }
}

/// The next action in this way where no attempt is open and none begins.
fn leaving_step(row: &OccRow, way: Way) -> Step
    ensures { action_of result ≡ leaving_by_row way row.now }
{
    if is_stopped(row) {
        Step::Move(OpState::FailedTemp)
    } else {
        Step::Move(end_of(way))
    }
}

/// The next action in this way while changes are made or undone.
fn working_step(row: &OccRow, occ: u64, way: Way) -> Step
    requires { IsWorkable row.now }
    ensures { action_of result ≡ working_by_row occ way row.now }
{
    let first = first_tag(row);
    if let Some(tag) = first
        && is_forced(row)
    {
        return Step::AbortAndLook(tag);
    }
    if let Some(tag) = begin_tag(row, occ, way) {
        return Step::Begin(tag);
    }
    match first {
        Some(tag) => Step::Look(tag),
        None => leaving_step(row, way),
    }
}

/// The next action of the occurrence of this number and row, which is active.
///
/// Condition: the row has at most 5,000 changes, whose phases rise, and a net for each; one more than how many attempts
/// the row counts at each fits a tag.
/// Source: SOL 003 5.6.2 (State model of occurrences), 9.4.2; the order of actions is an own rule, docs/MODEL.md.
pub fn step_by(row: &OccRow, occ: u64) -> Step
    requires { IsWorkable row.now }
    ensures { action_of result ≡ next_by_row occ row.now }
{
    match row.state {
        OpState::Starting => asking_step(row),
        OpState::RollingBack => working_step(row, occ, Way::Undo),
        _ => working_step(row, occ, Way::Forward),
    }
}
