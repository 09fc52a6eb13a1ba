//! Whether a filter lets a notice through.

ghost use Rattle.std.specs.Prelude.{◌≡◌, ◌==◌};
ghost use Rattle.lcm_events.specs.Same.{same_state};
ghost use Rattle.subscription_filter.specs.Facts.{facts_in};
ghost use Rattle.subscription_filter.specs.Parts.{texts_admit, words_admit};
ghost use Rattle.lcm_model.specs.Notices.{admits, admits_if_given, is_type_of, matches};
ghost use Rattle.lcm_model.specs.Notices.{notice_number};
ghost use Rattle.std.specs.List.{list_any};

use crate::facts::AskedNotice;
use crate::sorted::SortedFilter;
use lcm_events::{NoticeKind, OpKind, OpState, OperationType};

/// Whether one of the kinds is this one.
fn is_kind(kinds: &[NoticeKind], which: NoticeKind) -> bool
    ensures { result ≡ list_any (λ k. notice_number which == notice_number k) kinds.now }
{
    for kind in kinds {
        if which == *kind {
            return true;
        }
    }
    false
}

/// Whether a list of kinds of notices admits this one.
#[tactic(auto, using(crate::proofs::AdmitLaws::admits_by))]
fn admits_kind(kinds: &[NoticeKind], which: NoticeKind) -> bool
    ensures { result ≡ admits kinds.now (λ k. notice_number which == notice_number k) }
{
    let named = is_kind(kinds, which);
    kinds.len() == 0 || named
}

/// Whether the operation type that a filter names is that of the operation.
fn is_type(op: OpKind, kind: &OperationType) -> bool
    ensures { result ≡ is_type_of op kind.now }
{
    match kind {
        OperationType::Of(named) => op == *named,
        OperationType::ChangeExtConn | OperationType::ModifyInfo => false,
    }
}

/// Whether one of the operation types is that of the operation.
fn is_one_type(kinds: &[OperationType], op: OpKind) -> bool
    ensures { result ≡ list_any (is_type_of op) kinds.now }
{
    for kind in kinds {
        if is_type(op, kind) {
            return true;
        }
    }
    false
}

/// Whether a list of operation types asks nothing of the notice or admits its operation.
#[tactic(auto, using(crate::proofs::AdmitLaws::admits_by))]
fn admits_type(kinds: &[OperationType], op: Option<OpKind>) -> bool
    ensures { result ≡ admits_if_given kinds.now is_type_of op }
{
    match op {
        Some(op) => {
            let named = is_one_type(kinds, op);
            kinds.len() == 0 || named
        }
        None => true,
    }
}

/// Whether one of the states is this one.
fn is_state(states: &[OpState], state: OpState) -> bool
    ensures { result ≡ list_any (same_state state) states.now }
{
    for other in states {
        if state == *other {
            return true;
        }
    }
    false
}

/// Whether a list of states asks nothing of the notice or admits its state.
#[tactic(auto, using(crate::proofs::AdmitLaws::admits_by))]
fn admits_state(states: &[OpState], state: Option<OpState>) -> bool
    ensures { result ≡ admits_if_given states.now same_state state }
{
    match state {
        Some(state) => {
            let named = is_state(states, state);
            states.len() == 0 || named
        }
        None => true,
    }
}

/// Whether the lists of words of a filter let the notice through.
fn admits_words(filter: &SortedFilter, notice: &AskedNotice) -> bool
    ensures { result ≡ words_admit filter.now (facts_in notice.now) }
{
    let lists = filter.filter();
    let facts = notice.facts();
    admits_kind(lists.notices.as_slice(), facts.which)
        && admits_state(lists.states.as_slice(), facts.state)
        && admits_type(lists.operations.as_slice(), facts.op)
}

/// Whether the lists of names of a filter let the notice through.
fn admits_texts(filter: &SortedFilter, notice: &AskedNotice) -> bool
    ensures { result ≡ texts_admit notice.now.manager filter.now (facts_in notice.now) }
{
    filter.admits_instance(notice.instance())
        && filter.admits_vnfd(&notice.facts().vnfd)
        && filter.admits_name(&notice.facts().name)
}

/// Whether the filter lets the notice through: each of its lists does. An empty list asks nothing; a list of operation
/// types or states asks nothing of a creation or a deletion.
///
/// The lists are asked in the order of their cost, and the first that doesn't admit the notice is the last. A list of
/// names is halved until the name is found.
///
/// Source: SOL 003 5.5.3 (LifecycleChangeNotificationsFilter).
pub fn matches(filter: &SortedFilter, notice: &AskedNotice) -> bool
    ensures { result ≡ matches notice.now.manager filter.now (facts_in notice.now) }
{
    admits_words(filter, notice) && admits_texts(filter, notice)
}
