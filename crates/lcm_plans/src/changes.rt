//! Whether two plans are the same.

ghost use Rattle.std.specs.Prelude.{◌≡◌, ◌↔◌, IsTrue};
ghost use Rattle.std.specs.Cmp.Lexicographic.{pointwise};
ghost use Rattle.lcm_events.specs.Same.{same_change};

use lcm_events::Change;

/// Whether two changes are the same.
fn is_same(a: &Change, b: &Change) -> bool
    ensures { result ≡ same_change a.now b.now }
{
    *a == *b
}

/// Whether two lists have the same changes.
#[tactic(auto, using(crate::proofs::ChangeLaws::other_length))]
fn are_equal(a: &[Change], b: &[Change]) -> bool
    ensures { result ≡ pointwise same_change a.now b.now }
{
    if a.len() != b.len() {
        return false;
    }
    for (at, change) in a.iter().enumerate() {
        if !is_same(change, &b[at]) {
            return false;
        }
    }
    true
}

/// Whether two plans are equal: the same changes in the same order.
///
/// Source: own rule.
pub fn are_same(a: &[Change], b: &[Change]) -> bool
    ensures { IsTrue result ↔ (a.now ≡ b.now) }
{
    are_equal(a, b)
}
