//! Which change of a plan is undone next, and the work that undoes it.
#![tactic(auto)]

ghost use Rattle.std.specs.Prelude.{◌≡◌, ◌≢◌, ◌<◌, IfOk, IfSome, List, length, slice_get, slice_index, ℕ};
ghost use Rattle.change_planner.specs.Acts.{act};
ghost use Rattle.change_planner.specs.Free.{AreOfOccurrence, IsPlanWith, free_by};
ghost use Rattle.change_planner.specs.Tags.{IsOfAttempt, act_of};
ghost use Rattle.lcm_events.specs.declared.attempts.Tag.{Tag};
ghost use Rattle.lcm_events.specs.declared.attempts.Way.{Way};
ghost use Rattle.lcm_events.specs.declared.events.Event.{Event};
ghost use Rattle.lcm_model.specs.Attempts.{net};
ghost use Rattle.lcm_model.specs.Holding.{place as place_held};
ghost use Rattle.lcm_model.specs.Next.{chosen, free, with_net};
ghost use Rattle.lcm_model.specs.Operations.{changes as changes_of, undo};
ghost use Rattle.lcm_model.specs.Words.{last};

use change_planner::act_in;
use lcm_events::{Act, Change, Holding, Place, Vnfd, Way};
use lcm_model::verb_in_way;
use std::alloc::{AllocError, Global};

/// The greatest number, from 0, of a change whose net is 1, which is the one to undo next. `nets` has the net of each
/// change at the change's number; a change past its end has no net and is passed over.
///
/// `None` exactly where there is none: every change that has a net is undone.
/// Source: own rule: changes are undone in the reverse of the order of their plan.
pub fn next_undo(changes: &[Change], nets: &[u8]) -> Option<usize>
    ensures known { IfSome result (λ number. number < length changes.now) }
    ensures made { IfSome result (λ number. slice_get nets.now number ≡ Some 1) }
    ensures greatest { IfSome result (λ number. (higher : ℕ) → number < higher → higher < length changes.now
        → ¬ (slice_get nets.now higher ≡ Some 1)) }
    ensures none { result ≡ None → (number : ℕ) → number < length changes.now → ¬ (slice_get nets.now number ≡ Some 1) }
    ensures in_history { (H : List Event) (o : ℕ) → changes.now ≡ changes_of H o
        → ((number : ℕ) → number < length changes.now → slice_get nets.now number ≡ Some (net H o number))
        → result ≡ last (with_net H o 1) }
{
    let count = changes.len().min(nets.len());
    nets[..count].iter().rposition(|net| *net == 1)
}

/// The last number of a net that isn't 0.
fn last_made(nets: &[u8]) -> Option<usize>
    ensures known { IfSome result (λ lead. lead < length nets.now) }
    ensures made { IfSome result (λ lead. slice_index nets.now lead ≢ 0) }
    ensures ahead { IfSome result (λ lead. (number : ℕ) → lead < number → number < length nets.now
        → slice_index nets.now number ≡ 0) }
    ensures none { result ≡ None → (number : ℕ) → number < length nets.now → slice_index nets.now number ≡ 0 }
{
    nets.iter().rposition(|net| *net != 0)
}

/// The greatest number, from 0, of a change that may be undone while others are: its net is 1, it isn't busy, and each
/// change of a higher phase has net 0. `nets` has the net of each change at the change's number, and `busy` says there
/// whether an attempt at it is open.
///
/// Condition: both are as long as the changes, whose phases rise.
/// `None` exactly where there is none.
/// Source: own rule: a phase is undone once all higher ones are, and its changes in the reverse of their plan's order.
pub fn next_free_undo(changes: &[Change], nets: &[u8], busy: &[bool]) -> Option<usize>
    requires { IsPlanWith changes.now nets.now busy.now }
    ensures greatest { result ≡ chosen Way.Undo (free_by Way.Undo changes.now nets.now busy.now) }
    ensures in_history { (H : List Event) (o : ℕ) → AreOfOccurrence H o changes.now nets.now busy.now
        → result ≡ chosen Way.Undo (free H o Way.Undo) }
{
    let lead = last_made(nets)?;
    let phase = changes[lead].phase;
    for number in (0..lead + 1).rev() {
        if changes[number].phase != phase {
            return None;
        }
        if nets[number] == 1 && !busy[number] {
            return Some(number);
        }
    }
    None
}

/// The work that undoes a change of the descriptor's plan, over what stands, at the place where its resource last
/// stood: what was made is removed, what was removed is made again, what was started is stopped, what was stopped is
/// started. Where an attempt that undoes the change may begin, it is the attempt's work. `AllocError` is want of
/// memory.
///
/// Source: SOL 003 5.4.15 (Rollback operation task); SOL 001, Vdu.Compute, Vdu.VirtualBlockStorage, VduCp,
/// VnfVirtualLink; that a removal is undone by making anew is an own rule.
pub fn undo_act(
    alloc: Global,
    vnfd: &Vnfd,
    holding: &Holding,
    change: &Change,
    place: &Place,
) -> Result<Act, AllocError>
    ensures work { IfOk result (λ work. work ≡ act vnfd.now holding.now
        (undo change.now.verb) change.now.def place.now) }
    ensures of_attempt { (H : List Event) (t : Tag) → (s : IsOfAttempt vnfd.now holding.now change.now H t)
        → t.way ≡ Way.Undo → place_held H s.asked.instance change.now.def ≡ Some place.now
        → IfOk result (λ work. act_of H t ≡ Some work) }
{
    let verb = verb_in_way(Way::Undo, change.verb);
    act_in(alloc, vnfd, holding, verb, &change.def, place)
}
