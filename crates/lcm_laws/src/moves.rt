//! The states of an occurrence follow the graph.

ghost use Rattle.lcm_laws.specs.Paths.{MovesArePaths};

/// The states of each occurrence are a path of the graph from STARTING.
///
/// Source: SOL 003 5.6.2 (States and state transitions of a VNF LCM operation occurrence).
pub fn moves_are_paths()
    ensures { MovesArePaths }
{}
