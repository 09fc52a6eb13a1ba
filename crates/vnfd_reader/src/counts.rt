//! What is found once for all that policies state: the number of instances of each VDU at each level, and the VDU that
//! each target of a policy names.
ghost use Rattle.std.specs.Prelude.{◌≡◌, ◌≤◌, IfOk, find, length, map, option_map, true};
ghost use Rattle.std.specs.Option.{option_copied};
ghost use Rattle.serde_json.specs.View.{view};
ghost use Rattle.lcm_events.specs.Same.{same_name};
ghost use Rattle.lcm_model.specs.Descriptors.{IsValid, are_levels_of, is_valid_level};
ghost use Rattle.vnfd_document.specs.Places.{targets as the_targets};
ghost use Rattle.vnfd_document.specs.Seen.{seen};
ghost use Rattle.vnfd_reader.specs.Counted.{aim_at, counted as the_counted, counts_at as the_counts_at};
ghost use Rattle.vnfd_reader.specs.Counted.{counts_of as the_counts_of};
ghost use Rattle.vnfd_reader.specs.CountsSeen.{aim_seen, counts_seen};

use lcm_events::{Level, Vnfd};
use lcm_model::count_in;
use serde_json::Value;
use std::alloc::{AllocError, Global};
use vnfd_document::{Entry, name_in, targets};
use vnfd_nodes::place_of;
use vnfm_base::Name;

/// A level, with the number of instances of each VDU there.
#[derive(Drop)]
pub struct LevelCounts {
    pub name: Name,
    pub counts: Vec<u32>,
}

/// A target of a policy, with the place of the VDU that it names.
#[derive(Clone, Copy)]
pub struct Aim<'a> {
    pub target: &'a str,
    pub place: Option<u16>,
}

/// The number of instances of each of these VDUs at each level.
pub fn counted(alloc: Global, vnfd: &Vnfd, vdus: &[Entry]) -> Result<Vec<LevelCounts>, AllocError>
    requires valid { IsValid vnfd.now }
    requires vdus { length vdus.now ≤ 64 }
    ensures { IfOk result (λ found. map counts_seen found.items ≡ the_counted vnfd.now (map seen vdus.now)) }
{
    let mut found = Vec::new(alloc);
    for level in vnfd.levels.as_slice() {
        found.push(level_counts(alloc, vnfd, vdus, level)?)?;
    }
    Ok(found)
}

fn level_counts(
    alloc: Global,
    vnfd: &Vnfd,
    vdus: &[Entry],
    level: &Level,
) -> Result<LevelCounts, AllocError>
    requires valid { IsValid vnfd.now }
    requires level { is_valid_level vnfd.now level.now ≡ true }
    requires vdus { length vdus.now ≤ 64 }
    ensures { IfOk result (λ found. counts_seen found ≡ (
      level.now.name,
      the_counts_at vnfd.now (map seen vdus.now) level.now.numbers,
    )) }
{
    Ok(LevelCounts {
        name: level.name,
        counts: counts_at(alloc, vnfd, vdus, level.numbers.as_slice())?,
    })
}

/// The number of instances of each of these VDUs at these levels.
fn counts_at(
    alloc: Global,
    vnfd: &Vnfd,
    vdus: &[Entry],
    levels: &[u32],
) -> Result<Vec<u32>, AllocError>
    requires valid { IsValid vnfd.now }
    requires levels { are_levels_of vnfd.now levels.now ≡ true }
    requires vdus { length vdus.now ≤ 64 }
    ensures { IfOk result (λ found. found.items ≡ the_counts_at vnfd.now (map seen vdus.now) levels.now) }
{
    let mut found = Vec::new(alloc);
    let mut place = 0;
    for _vdu in vdus {
        found.push(count_in(vnfd, place, levels))?;
        place += 1;
    }
    Ok(found)
}

/// The numbers of instances at the level of this name.
pub fn counts_of<'a>(table: &'a [LevelCounts], level: &str) -> Option<&'a [u32]>
    ensures { option_copied result ≡ the_counts_of (map counts_seen table.now) level.now }
{
    match name_in(level) {
        Some(name) => counts_named(table, &name),
        None => None,
    }
}

fn counts_named<'a>(table: &'a [LevelCounts], name: &Name) -> Option<&'a [u32]>
    ensures { option_copied result ≡ option_map (λ x. x.1)
        (find (λ x. same_name x.0 name.now) (map counts_seen table.now)) }
{
    for level in table {
        if level.name == *name {
            return Some(level.counts.as_slice());
        }
    }
    None
}

/// What a policy aims at, each target looked up among these VDUs.
pub fn aims<'a>(
    alloc: Global,
    vdus: &[Entry],
    policy: &'a Value,
) -> Result<Option<Vec<Aim<'a>>>, AllocError>
    requires { length vdus.now ≤ 64 }
    ensures { IfOk result (λ found. option_map (λ aims. map aim_seen aims.items) found
        ≡ option_map (map (aim_at (map seen vdus.now))) (the_targets (view policy.now))) }
{
    match targets(alloc, policy)? {
        Some(names) => Ok(Some(aims_at(alloc, vdus, names.as_slice())?)),
        None => Ok(None),
    }
}

fn aims_at<'a>(
    alloc: Global,
    vdus: &[Entry],
    targets: &[&'a str],
) -> Result<Vec<Aim<'a>>, AllocError>
    requires { length vdus.now ≤ 64 }
    ensures { IfOk result (λ found. map aim_seen found.items
        ≡ map (aim_at (map seen vdus.now)) (map (λ t. t.now) targets.now)) }
{
    let mut found = Vec::new(alloc);
    for target in targets {
        found.push(Aim {
            target: *target,
            place: place_of(vdus, *target),
        })?;
    }
    Ok(found)
}
