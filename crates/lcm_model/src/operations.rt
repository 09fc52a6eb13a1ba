//! The kinds of operations, and what an attempt at a change does.

ghost use Rattle.std.specs.Prelude.{◌≡◌};
ghost use Rattle.lcm_model.specs.Operations.{kind_of, verb_done};

use lcm_events::{Ask, OpKind, Verb, Way};

/// The kind of an operation.
///
/// Source: SOL 003 5.5.2.13 (VnfLcmOpOcc).
pub fn op_kind(ask: &Ask) -> OpKind
    ensures { result ≡ kind_of ask.now }
{
    match ask {
        Ask::Instantiate { .. } => OpKind::Instantiate,
        Ask::Scale { .. } => OpKind::Scale,
        Ask::ScaleToLevel(_) => OpKind::ScaleToLevel,
        Ask::Heal { .. } => OpKind::Heal,
        Ask::Operate { .. } => OpKind::Operate,
        Ask::Terminate { .. } => OpKind::Terminate,
    }
}

/// What an attempt in this way at a change with this verb does.
///
/// Source: own rule.
pub fn verb_in_way(way: Way, verb: Verb) -> Verb
    ensures { result ≡ verb_done way verb }
{
    match way {
        Way::Forward => verb,
        Way::Undo => match verb {
            Verb::Create => Verb::Remove,
            Verb::Remove => Verb::Create,
            Verb::Start => Verb::Stop,
            Verb::Stop => Verb::Start,
        },
    }
}
