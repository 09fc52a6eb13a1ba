//! Which change of a plan is made next, and the work that makes it.
#![tactic(auto)]

ghost use Rattle.std.specs.Prelude.{◌≡◌, ◌≢◌, ◌<◌, IfSome, List, length, slice_get, slice_index, ℕ};
ghost use Rattle.change_planner.specs.Free.{AreOfOccurrence, IsPlanWith, free_by};
ghost use Rattle.lcm_events.specs.declared.attempts.Way.{Way};
ghost use Rattle.lcm_events.specs.declared.events.Event.{Event};
ghost use Rattle.lcm_model.specs.Attempts.{net};
ghost use Rattle.lcm_model.specs.Next.{chosen, free, with_net};
ghost use Rattle.lcm_model.specs.Operations.{changes as changes_of};
ghost use Rattle.lcm_model.specs.Words.{first};

mod acts;
mod holdings;
mod in_step;
mod planning;
mod plans;
mod records;
mod refusals;
mod rolls;
mod spans;

pub use acts::{act_in, acts_are_on_what_stands, forward_act};
pub use holdings::{can_be_planned, holdings_are_inventories, plans_are_those_of_histories};
pub use in_step::is_in_step;
use lcm_events::Change;
pub use planning::plan;
pub use records::asked_events_fit_records;
pub use refusals::PlanRefusal;
pub use rolls::storages_in;

/// The least number, from 0, of a change whose net is 0, which is the one to make next. `nets` has the net of each
/// change at the change's number; a change past its end has no net and is passed over.
///
/// `None` exactly where there is none: every change that has a net is made.
/// Source: own rule: changes are made in the order of their plan.
pub fn next_change(changes: &[Change], nets: &[u8]) -> Option<usize>
    ensures known { IfSome result (λ number. number < length changes.now) }
    ensures open { IfSome result (λ number. slice_get nets.now number ≡ Some 0) }
    ensures least { IfSome result (λ number. (lower : ℕ) → lower < number → ¬ (slice_get nets.now lower ≡ Some 0)) }
    ensures none { result ≡ None → (number : ℕ) → number < length changes.now → ¬ (slice_get nets.now number ≡ Some 0) }
    ensures in_history { (H : List Event) (o : ℕ) → changes.now ≡ changes_of H o
        → ((number : ℕ) → number < length changes.now → slice_get nets.now number ≡ Some (net H o number))
        → result ≡ first (with_net H o 0) }
{
    changes.iter().zip(nets).position(|(_, net)| *net == 0)
}

/// The first number of a net that isn't 1.
fn first_unmade(nets: &[u8]) -> Option<usize>
    ensures known { IfSome result (λ lead. lead < length nets.now) }
    ensures unmade { IfSome result (λ lead. slice_index nets.now lead ≢ 1) }
    ensures ahead { IfSome result (λ lead. (number : ℕ) → number < lead → slice_index nets.now number ≡ 1) }
    ensures none { result ≡ None → (number : ℕ) → number < length nets.now → slice_index nets.now number ≡ 1 }
{
    nets.iter().position(|net| *net != 1)
}

/// The least number, from 0, of a change that may be made while others are: its net is 0, it isn't busy, and each
/// change of a lower phase has net 1. `nets` has the net of each change at the change's number, and `busy` says there
/// whether an attempt at it is open.
///
/// Condition: both are as long as the changes, whose phases rise.
/// `None` exactly where there is none.
/// Source: own rule: a phase is made once all lower ones are, and its changes in the order of their plan.
pub fn next_free(changes: &[Change], nets: &[u8], busy: &[bool]) -> Option<usize>
    requires { IsPlanWith changes.now nets.now busy.now }
    ensures least { result ≡ chosen Way.Forward (free_by Way.Forward changes.now nets.now busy.now) }
    ensures in_history { (H : List Event) (o : ℕ) → AreOfOccurrence H o changes.now nets.now busy.now
        → result ≡ chosen Way.Forward (free H o Way.Forward) }
{
    let lead = first_unmade(nets)?;
    let phase = changes[lead].phase;
    for number in lead..changes.len() {
        if changes[number].phase != phase {
            return None;
        }
        if nets[number] == 0 && !busy[number] {
            return Some(number);
        }
    }
    None
}
