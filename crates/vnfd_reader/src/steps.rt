//! Whether the numbers stated for levels are those that deltas lead to.
ghost use Rattle.std.specs.Prelude.{◌≡◌, ◌≤◌, Option, List, ℕ, length, map, option_map, slice_get, unwrap_or};
ghost use Rattle.serde_json.specs.View.{view};
ghost use Rattle.lcm_model.specs.Descriptors.{IsValid};
ghost use Rattle.vnfd_document.specs.Checks.{Refuses, fault_of, first_failing};
ghost use Rattle.vnfd_document.specs.Seen.{seen};
ghost use Rattle.vnfd_reader.specs.Counted.{aim_refusal, aims_refusal, at_level_refusal, at_levels_refusal};
ghost use Rattle.vnfd_reader.specs.Counted.{counted as the_counted, counts_of as the_counts_of};
ghost use Rattle.vnfd_reader.specs.CountsSeen.{aim_seen, counts_seen};
ghost use Rattle.vnfd_reader.specs.Steps.{is_stated as the_is_stated, policy_refusal, stated as the_stated};
ghost use Rattle.vnfd_reader.specs.Steps.{steps_refusal};

use crate::counts::{Aim, LevelCounts, aims, counted, counts_of};
use lcm_events::Vnfd;
use serde_json::Value;
use std::alloc::Global;
use vnfd_document::{Entry, VnfdFault, at, label, members_in, name_or_empty, unknown, whole_in};

/// The numbers that policies state for levels are those that deltas lead to.
#[tactic(auto, unfolding(crate::specs::Steps::steps_refusal))]
pub fn refuse_steps(
    alloc: Global,
    vnfd: &Vnfd,
    vdus: &[Entry],
    policies: &[Entry],
) -> Result<(), VnfdFault>
    requires valid { IsValid vnfd.now }
    requires vdus { length vdus.now ≤ 64 }
    ensures { Refuses result (steps_refusal vnfd.now (map seen vdus.now) (map seen policies.now)) }
{
    if policies.is_empty() {
        return Ok(());
    }
    let table = counted(alloc, vnfd, vdus)?;
    refuse_policies(alloc, vnfd, table.as_slice(), vdus, policies)
}

/// The same, where the numbers were counted.
fn refuse_policies(
    alloc: Global,
    vnfd: &Vnfd,
    table: &[LevelCounts],
    vdus: &[Entry],
    policies: &[Entry],
) -> Result<(), VnfdFault>
    requires table { map counts_seen table.now ≡ the_counted vnfd.now (map seen vdus.now) }
    requires vdus { length vdus.now ≤ 64 }
    ensures { Refuses result (first_failing (λ p. policy_refusal vnfd.now (map seen vdus.now) p.1)
        (map seen policies.now)) }
{
    for policy in policies {
        refuse_policy(alloc, vnfd, table, vdus, policy.value)?;
    }
    Ok(())
}

fn refuse_policy(
    alloc: Global,
    vnfd: &Vnfd,
    table: &[LevelCounts],
    vdus: &[Entry],
    policy: &Value,
) -> Result<(), VnfdFault>
    requires table { map counts_seen table.now ≡ the_counted vnfd.now (map seen vdus.now) }
    requires vdus { length vdus.now ≤ 64 }
    ensures { Refuses result (policy_refusal vnfd.now (map seen vdus.now) (view policy.now)) }
{
    let levels = members_in(alloc, at(policy, &["properties", "levels"]))?;
    let aims = aims(alloc, vdus, policy)?;
    match &aims {
        Some(aims) => refuse_levels(table, Some(aims.as_slice()), levels.as_slice()),
        None => refuse_levels(table, None, levels.as_slice()),
    }
}

/// What a policy with these targets states for these levels.
fn refuse_levels(
    table: &[LevelCounts],
    aims: Option<&[Aim]>,
    levels: &[Entry],
) -> Result<(), VnfdFault>
    ensures { fault_of result ≡ at_levels_refusal (map counts_seen table.now)
        (option_map (λ aims. map aim_seen aims.now) aims.entry) (map seen levels.now) }
{
    for level in levels {
        refuse_level(table, aims, level)?;
    }
    Ok(())
}

fn refuse_level(table: &[LevelCounts], aims: Option<&[Aim]>, level: &Entry) -> Result<(), VnfdFault>
    ensures { fault_of result ≡ at_level_refusal (option_map (λ aims. map aim_seen aims.now) aims.entry)
        (seen level.now) (the_counts_of (map counts_seen table.now) level.now.name.now) }
{
    match counts_of(table, level.name) {
        Some(counts) => refuse_targets(counts, stated(level.value), level.name, aims),
        None => Err(unknown(level.name)),
    }
}

fn refuse_targets(
    counts: &[u32],
    number: Option<u32>,
    level: &str,
    aims: Option<&[Aim]>,
) -> Result<(), VnfdFault>
    ensures { fault_of result ≡ aims_refusal counts.now number level.now
        (option_map (λ aims. map aim_seen aims.now) aims.entry) }
{
    match aims {
        Some(aims) => refuse_each(counts, number, level, aims),
        None => Err(VnfdFault::Wrong(label("targets"))),
    }
}

fn refuse_each(
    counts: &[u32],
    number: Option<u32>,
    level: &str,
    aims: &[Aim],
) -> Result<(), VnfdFault>
    ensures { fault_of result ≡ first_failing (aim_refusal counts.now number level.now) (map aim_seen aims.now) }
{
    for aim in aims {
        refuse_aim(counts, number, level, aim)?;
    }
    Ok(())
}

/// What is stated for a VDU at a level is the number of its instances there.
fn refuse_aim(counts: &[u32], number: Option<u32>, level: &str, aim: &Aim) -> Result<(), VnfdFault>
    ensures { fault_of result ≡ aim_refusal counts.now number level.now (aim_seen aim.now) }
{
    let Some(place) = aim.place else {
        return Err(unknown(aim.target));
    };
    if is_stated(count_at(counts, place), number) {
        return Ok(());
    }
    Err(VnfdFault::OutOfStep {
        level: name_or_empty(level),
        vdu: name_or_empty(aim.target),
    })
}

/// The number at a place, and 0 where there is none.
fn count_at(counts: &[u32], place: u16) -> u32
    ensures { result ≡ unwrap_or (slice_get counts.now place) 0 }
{
    match counts.get(place as usize) {
        Some(count) => *count,
        None => 0,
    }
}

/// Whether this number of instances is stated.
fn is_stated(machines: u32, number: Option<u32>) -> bool
    ensures { result ≡ the_is_stated machines number }
{
    match number {
        Some(number) => number == machines,
        None => false,
    }
}

fn stated(level: &Value) -> Option<u32>
    ensures { result ≡ the_stated (view level.now) }
{
    whole_in(0, 4_294_967_295, level.get("number_of_instances")?)
}
