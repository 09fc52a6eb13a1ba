//! What asking a live instance for an operation comes to, by the tables: the changes of its plan, or why it is refused.

ghost use Rattle.std.specs.Prelude.{◌≡◌, List, Some, is_some, ℕ};
ghost use Rattle.executor.specs.Operating.{TellsAsk};
ghost use Rattle.instance_table.specs.Rows.{instance};
ghost use Rattle.lcm_events.specs.declared.events.Event.{Event};
ghost use Rattle.lcm_model.specs.Allowed.{IsLegal};
ghost use Rattle.lcm_model.specs.Descriptors.{IsHoldingOf, IsValid};
ghost use Rattle.lcm_model.specs.Operations.{ongoing};
ghost use Rattle.lcm_model.specs.Words.{first};
ghost use Rattle.lcm_tables.specs.Asking.{IsAskedOf};
ghost use Rattle.lcm_tables.specs.Tables.{AreTablesOf, HasSmallHistory, IsSmall, Says};

use instance_table::{InstanceRow, rows_have_holdings};
use lcm_events::{Ask, Changes, Vnfd};
use lcm_model::Refusal;
use lcm_plans::{content_refusal_in, plan_standing};
use lcm_tables::Tables;
use std::alloc::{AllocError, Global};
use thiserror::Error;

/// Why a live instance isn't asked for an operation.
#[derive(Debug, Drop, Error)]
pub enum AskFault {
    /// The ask is refused.
    #[error("the operation is refused")]
    Refused(Refusal),
    /// There is no memory.
    #[error("no memory")]
    Memory,
}

impl From<AllocError> for AskFault {
    ghost use Rattle.executor.specs.declared.asks.AskFault.TheVariants.{Memory};

    ghost from_gives = { λ _ e. e ≡ Memory };

    fn from(_: AllocError) -> AskFault {
        AskFault::Memory
    }
}

/// The changes of the plan of an ask of the live instance of this row, or why it is refused.
pub fn plan_of(
    alloc: Global,
    tables: &Tables,
    row: &InstanceRow,
    ask: &Ask,
) -> Result<Changes, AskFault>
    requires own { (s : HasSmallHistory tables.now) × (instance s.history row.now.number ≡ Some row.now) }
    ensures { (m : ℕ) (H : List Event) → IsSmall H → IsLegal m H → AreTablesOf m tables.now H
        → instance H row.now.number ≡ Some row.now
        → TellsAsk H row.now.number ask.now result }
{
    rows_have_holdings();
    match tables.instances.vnfd(&row.vnfd) {
        Some(vnfd) => plan_over(alloc, tables, vnfd, row, ask),
        // The row of each live instance names a descriptor that was onboarded.
        None => unreachable!(),
    }
}

/// The same of the instance of this row with its descriptor.
fn plan_over(
    alloc: Global,
    tables: &Tables,
    vnfd: &Vnfd,
    row: &InstanceRow,
    ask: &Ask,
) -> Result<Changes, AskFault>
    requires valid { IsValid vnfd.now }
    requires held { IsHoldingOf vnfd.now row.now.holding }
    ensures { (m : ℕ) (H : List Event) → IsSmall H → IsLegal m H → AreTablesOf m tables.now H
        → IsAskedOf H row.now.number vnfd.now row.now.holding
        → TellsAsk H row.now.number ask.now result }
{
    let busy = is_busy(tables, row.number);
    if let Some(why) = content_refusal_in(vnfd, ask) {
        return Err(AskFault::Refused(why));
    }
    match plan_standing(alloc, vnfd, &row.holding, busy, ask)? {
        Ok(changes) => Ok(changes),
        Err(why) => Err(AskFault::Refused(why)),
    }
}

/// Whether an operation of the instance goes on.
fn is_busy(tables: &Tables, number: u64) -> bool
    ensures { Says (λ H. result ≡ is_some (first (ongoing H number))) tables.now }
{
    tables.occurrences.ongoing(number).is_some()
}
