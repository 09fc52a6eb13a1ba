//! The words of a line: numbers, identifiers, moments, and those of the standard.
ghost use Rattle.std.specs.Prelude.{◌≡◌, ◌++◌, OnOk, decimal};
ghost use Rattle.json_bodies.specs.Words.{cancel_word, kind_word};
ghost use Rattle.json_views.specs.Moments.{moment_text};
ghost use Rattle.lcm_model.specs.Operations.{kind_of};
ghost use Rattle.history_lines.specs.Words.{identifier, instance_words, is_ident_number, occurrence_words, role_word};
ghost use Rattle.history_lines.specs.Words.{subscription_words};

use itoa::Buffer;
use json_views::{kind_word, moments_have_one_text};
use lcm_events::{Ask, CancelMode, OpKind, Role};
use std::alloc::AllocError;
use vnfm_base::{Kind, Moment, ident, ident_text, moment_text};

/// The numbers that an identifier can carry are below this one.
const IDENT_NUMBERS: u64 = 1 << 62;

/// Adds these bytes.
pub fn push(text: &mut Vec<u8>, part: &[u8]) -> Result<(), AllocError>
    ensures { OnOk result (text.new.items ≡ text.old.items ++ part.now) }
{
    text.extend_from_slice(part)
}

/// Adds a number in decimal.
pub fn push_number(text: &mut Vec<u8>, n: u64) -> Result<(), AllocError>
    ensures { OnOk result (text.new.items ≡ text.old.items ++ decimal n) }
{
    let mut digits = Buffer::new();
    push(text, digits.format(n).as_bytes())
}

/// Adds a moment.
pub fn push_moment(text: &mut Vec<u8>, moment: Moment) -> Result<(), AllocError>
    ensures { OnOk result (text.new.items ≡ text.old.items ++ moment_text moment) }
{
    moments_have_one_text();
    let bytes = moment_text(moment);
    push(text, bytes.as_slice())?;
    Ok(())
}

/// Whether an identifier can carry this number.
fn is_ident_number(n: u64) -> bool
    ensures { result ≡ is_ident_number n }
{
    1 <= n && n < IDENT_NUMBERS
}

/// Adds the identifier of the n-th of this kind, or the number where no identifier carries it.
#[tactic(auto, unfolding(crate::specs::Words::identifier))]
fn push_identifier(text: &mut Vec<u8>, manager: u32, kind: Kind, n: u64) -> Result<(), AllocError>
    ensures { OnOk result (text.new.items ≡ text.old.items ++ identifier manager kind n) }
{
    if is_ident_number(n) {
        push(text, ident_text(&ident(manager, kind, n)).as_slice())
    } else {
        push_number(text, n)
    }
}

/// Adds which instance it is.
#[tactic(auto, unfolding(crate::specs::Words::instance_words))]
pub fn push_instance(text: &mut Vec<u8>, manager: u32, n: u64) -> Result<(), AllocError>
    ensures { OnOk result (text.new.items ≡ text.old.items ++ instance_words manager n) }
{
    push(text, b" vnfInstanceId ")?;
    push_identifier(text, manager, Kind::Instance, n)?;
    Ok(())
}

/// Adds which occurrence it is.
#[tactic(auto, unfolding(crate::specs::Words::occurrence_words))]
pub fn push_occurrence(text: &mut Vec<u8>, manager: u32, n: u64) -> Result<(), AllocError>
    ensures { OnOk result (text.new.items ≡ text.old.items ++ occurrence_words manager n) }
{
    push(text, b" vnfLcmOpOccId ")?;
    push_identifier(text, manager, Kind::Occurrence, n)?;
    Ok(())
}

/// Adds which subscription it is.
#[tactic(auto, unfolding(crate::specs::Words::subscription_words))]
pub fn push_subscription(text: &mut Vec<u8>, manager: u32, n: u64) -> Result<(), AllocError>
    ensures { OnOk result (text.new.items ≡ text.old.items ++ subscription_words manager n) }
{
    push(text, b" subscriptionId ")?;
    push_identifier(text, manager, Kind::Subscription, n)?;
    Ok(())
}

/// The kind of an operation.
pub fn operation_word(ask: &Ask) -> &'static str
    ensures { result.now ≡ kind_word (kind_of ask.now) }
{
    match ask {
        Ask::Instantiate { .. } => kind_word(OpKind::Instantiate),
        Ask::Scale { .. } => kind_word(OpKind::Scale),
        Ask::ScaleToLevel(_) => kind_word(OpKind::ScaleToLevel),
        Ask::Heal { .. } => kind_word(OpKind::Heal),
        Ask::Operate { .. } => kind_word(OpKind::Operate),
        Ask::Terminate { .. } => kind_word(OpKind::Terminate),
    }
}

/// Who asks.
pub fn role_word(role: Role) -> &'static str
    ensures { result.now ≡ role_word role }
{
    match role {
        Role::Orchestrator => "orchestrator",
        Role::Element => "em",
    }
}

/// How a cancel ends the work that is under way.
pub fn cancel_word(mode: CancelMode) -> &'static str
    ensures { result.now ≡ cancel_word mode }
{
    match mode {
        CancelMode::Graceful => "GRACEFUL",
        CancelMode::Forceful => "FORCEFUL",
    }
}
