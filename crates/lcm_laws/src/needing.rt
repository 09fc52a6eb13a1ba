//! What work needs stands, and what stands is on what stands.

ghost use Rattle.lcm_laws.specs.Needing.{ComputesStandBesideLinks, NeedsAreExact, WhatStandsIsOnWhatStands};
ghost use Rattle.lcm_laws.specs.Needing.{WorkFindsWhatItNeeds, WorkFitsWhatStands};

/// What work on a definition needs: a compute that is made needs the storages of its machine, a port its compute and
/// its link, and other work the definition itself.
///
/// Source: SOL 001 (Vdu.Compute, VduCp).
pub fn needs_are_exact()
    ensures { NeedsAreExact }
{}

/// When an attempt may begin, what its work is done on stands, whether it makes its change or undoes it.
///
/// Source: own rule.
pub fn work_finds_what_it_needs()
    ensures { WorkFindsWhatItNeeds }
{}

/// What a definition that stands was made on stands too: a compute's storages, a port's compute and link.
///
/// Source: SOL 001 (Vdu.Compute, VduCp).
pub fn what_stands_is_on_what_stands()
    ensures { WhatStandsIsOnWhatStands }
{}

/// All links of an instance stand where a compute of it stands.
///
/// Source: own rule.
pub fn computes_stand_beside_links()
    ensures { ComputesStandBesideLinks }
{}

/// When an attempt may begin, what its work makes doesn't stand, and what it starts, stops or removes stands.
///
/// Source: own rule.
pub fn work_fits_what_stands()
    ensures { WorkFitsWhatStands }
{}
