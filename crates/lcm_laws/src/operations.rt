//! What is made is numbered, and the operations of an instance follow one another.

ghost use Rattle.lcm_laws.specs.Numbering.{NumbersRunFromOne};
ghost use Rattle.lcm_laws.specs.Operating.{OneOperationGoesOn, OperationsAreFound, OperationsStayFound};

/// The n-th instance, occurrence and subscription have number n.
///
/// Source: own rule.
pub fn numbers_run_from_one()
    ensures { NumbersRunFromOne }
{}

/// An operation once asked for is found for ever, whatever comes later.
///
/// Source: own rule.
pub fn operations_stay_found()
    ensures { OperationsStayFound }
{}

/// An operation is found exactly under the numbers from 1 to how many were asked for.
///
/// Source: own rule.
pub fn operations_are_found()
    ensures { OperationsAreFound }
{}

/// An instance has at most one operation that goes on.
///
/// Source: SOL 003 5.4.4 to 5.4.10 (the tasks of an instance).
pub fn one_operation_goes_on()
    ensures { OneOperationGoesOn }
{}
