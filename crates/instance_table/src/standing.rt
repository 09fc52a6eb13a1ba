//! What the row of an instance says stands of it.

ghost use Rattle.instance_table.specs.Standing.{RowsHaveHoldings};

/// A live instance has a descriptor, and its row the holding by this descriptor, as a plan takes it.
///
/// Source: SOL 003 5.5.2.2 (VnfInstance, instantiatedVnfInfo).
pub fn rows_have_holdings()
    ensures { RowsHaveHoldings }
{}
