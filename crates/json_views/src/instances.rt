//! The view of all live instances.
ghost use Rattle.std.specs.Prelude.{◌≡◌, IfOk, true};
ghost use Rattle.json_views.specs.Instances.{CanBeShown, IsShowable, instances_text, row_value};

use crate::instance::instance_value;
use crate::members::{Shows, array_text};
use instance_table::{InstanceRow, InstanceTable};
use serde_json::Value;
use std::alloc::{AllocError, Global};
use vnfm_base::Bytes;

/// The views of all live instances, in the order of their numbers, each with the descriptor that its row names. The
/// time is linear in what is told, but for the search of each row's descriptor among at most 256. Of the views there is
/// one at a time, beside the text.
///
/// Condition: each row has a number of an identifier and a descriptor that was onboarded, and what stands of it is in
/// order of definition, as `legal_rows_can_be_shown` says of the rows of each legal history.
/// Source: SOL 003 5.4.2.3.2 (GET on VNF instances).
#[tactic(auto, unfolding(crate::specs::Instances::instances_text))]
pub fn instances_view(
    alloc: Global,
    manager: u32,
    table: &InstanceTable,
) -> Result<Bytes, AllocError>
    requires { CanBeShown table.now.rows }
    ensures { IfOk result (λ body. body ≡ instances_text manager table.now.rows) }
{
    array_text(alloc, table.instances(), &Instances { manager, table })
}

/// The instances of a table, each with the descriptor that its row names.
#[derive(Clone, Copy)]
struct Instances<'a> {
    manager: u32,
    table: &'a InstanceTable,
}

impl Shows<InstanceRow> for Instances<'_> {
    ghost IsReady = { λ s. Unit {0} };

    ghost MayShow = { λ s row. IsShowable s.table.now.rows row };

    ghost has = { λ s row. true };

    ghost shown = { λ s row. row_value s.manager s.table.now.rows row };

    fn has(&self, _row: &InstanceRow) -> bool {
        true
    }

    fn show(&self, alloc: Global, row: &InstanceRow) -> Result<Value, AllocError> {
        match self.table.vnfd(&row.vnfd) {
            Some(vnfd) => instance_value(alloc, self.manager, row.number, row, vnfd),
            // The row of each live instance names a descriptor that was onboarded.
            None => unreachable!(),
        }
    }
}
