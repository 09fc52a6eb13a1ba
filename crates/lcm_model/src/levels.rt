//! How many machines a VDU has at given levels.

ghost use Rattle.std.specs.Prelude.{◌≡◌, ◌+◌, ◌*◌, ◌<◌, ◌≤◌, IfSome, take, length, map, zip, true, nat_le};
ghost use Rattle.std.specs.Prelude.{option_copied};
ghost use Rattle.std.specs.List.{list_all};
ghost use Rattle.lcm_model.specs.Words.{total};
ghost use Rattle.lcm_model.specs.Levels.{added, count, has_small_deltas, has_small_row, initial, row_of, steps_to};
ghost use Rattle.lcm_model.specs.Descriptors.{IsValid, are_levels_of};

use lcm_events::{Aspect, Row, Vnfd};

/// What the first steps up to a level add.
#[tactic(auto, using(crate::proofs::ListLaws::steps_one, crate::proofs::ListLaws::steps_many))]
fn steps_added(level: u32, deltas: &[u32]) -> u32
    requires small { list_all (λ n. nat_le n 65535) deltas.now ≡ true }
    requires level { level ≤ 1000 }
    ensures value { result ≡ steps_to level deltas.now }
    ensures bound { result ≤ 65535 * level }
{
    if deltas.len() == 1 {
        level * deltas[0]
    } else {
        sum_of_first(level, deltas)
    }
}

/// The sum of the first numbers of a list.
#[tactic(auto, using(crate::proofs::ListLaws::total_take))]
fn sum_of_first(count: u32, numbers: &[u32]) -> u32
    requires small { list_all (λ n. nat_le n 65535) numbers.now ≡ true }
    requires count { count ≤ 1000 }
    ensures value { result ≡ total (take count numbers.now) }
    ensures bound { result ≤ 65535 * count }
{
    let mut sum = 0;
    let mut left = count;
    for number in numbers {
        if left == 0 {
            return sum;
        }
        sum += *number;
        left -= 1;
    }
    sum
}

/// The row of an aspect for the VDU.
fn row_in(vdu: u16, rows: &[Row]) -> Option<&Row>
    requires { list_all has_small_row rows.now ≡ true }
    ensures value { option_copied result ≡ row_of vdu rows.now }
    ensures small { IfSome result (λ row. list_all (λ n. nat_le n 65535) row.now.deltas ≡ true) }
{
    for row in rows {
        if row.vdu == vdu {
            return Some(row);
        }
    }
    None
}

/// What an aspect adds to the VDU at a level.
#[tactic(auto, unfolding(crate::specs::Levels::added, crate::specs::Levels::has_small_deltas))]
fn added_by_aspect(vdu: u16, aspect: &Aspect, level: u32) -> u32
    requires small { has_small_deltas aspect.now ≡ true }
    requires level { level ≤ aspect.now.maximum }
    ensures bound { result ≤ 65535000 }
    ensures value { result ≡ added vdu (aspect.now, level) }
{
    match row_in(vdu, aspect.rows.as_slice()) {
        Some(row) => steps_added(level, row.deltas.as_slice()),
        None => 0,
    }
}

/// The machines of the VDU at level 0 of every aspect.
fn initial_of(vnfd: &Vnfd, vdu: u16) -> u32
    requires valid { IsValid vnfd.now }
    ensures value { result ≡ initial vnfd.now vdu }
    ensures bound { result ≤ 65535 }
{
    match vnfd.vdus.as_slice().get(vdu as usize) {
        Some(kind) => kind.initial,
        None => 0,
    }
}

/// What the aspects from this one on add to the VDU at their levels.
fn added_in(vdu: u16, aspects: &[Aspect], levels: &[u32]) -> u32
    requires few { length aspects.now ≤ 16 }
    requires long { length levels.now ≡ length aspects.now }
    requires within { list_all (λ x. nat_le x.1 x.0.maximum) (zip aspects.now levels.now) ≡ true }
    requires small { list_all has_small_deltas aspects.now ≡ true }
    ensures value { result ≡ total (map (added vdu) (zip aspects.now levels.now)) }
    ensures bound { result ≤ 1048560000 }
{
    let mut sum = 0;
    for (at, aspect) in aspects.iter().enumerate() {
        sum += added_by_aspect(vdu, aspect, levels[at]);
    }
    sum
}

/// The machines of a VDU at these levels.
///
/// Source: SOL 001, tosca.policies.nfv.VduInitialDelta and tosca.policies.nfv.VduScalingAspectDeltas.
#[tactic(auto, using(crate::proofs::ValidLaws::valid_small))]
pub fn count_in(vnfd: &Vnfd, vdu: u16, levels: &[u32]) -> u32
    requires valid { IsValid vnfd.now }
    requires levels { are_levels_of vnfd.now levels.now ≡ true }
    ensures value { result ≡ count vnfd.now vdu levels.now }
    ensures bound { result ≤ 1048625535 }
{
    initial_of(vnfd, vdu) + added_in(vdu, vnfd.aspects.as_slice(), levels)
}
