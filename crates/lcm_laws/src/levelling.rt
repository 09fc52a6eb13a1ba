//! The levels of an instance are those that an operation aimed at.

ghost use Rattle.lcm_laws.specs.Levelling.{LevelsAreTargets};

/// The levels of an instance are the target of the operation that set them last, and 0 where none has.
///
/// Source: SOL 003 5.5.2.2 (VnfInstance, scaleStatus).
pub fn levels_are_targets()
    ensures { LevelsAreTargets }
{}
