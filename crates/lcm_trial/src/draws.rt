//! The numbers that a trial draws.
ghost use Rattle.std.specs.Prelude.{◌≡◌, ◌<◌};
ghost use Rattle.lcm_trial.specs.Draws.{below, next_drawn};

/// The number that is drawn behind this one.
///
/// Source: own rule, docs/FORMATS.md, "The trial".
pub fn next_drawn(drawn: u64) -> u64
    ensures { result ≡ next_drawn drawn }
{
    drawn
        .wrapping_mul(6_364_136_223_846_793_005)
        .wrapping_add(1_442_695_040_888_963_407)
}

/// The number below `limit` that a drawn one gives.
///
/// Source: own rule, docs/FORMATS.md, "The trial".
pub fn below(limit: u64, drawn: u64) -> u64
    requires { 0 < limit }
    ensures value { result ≡ below limit drawn }
    ensures less { result < limit }
{
    (drawn >> 33) % limit
}
