//! The three parts of a grant request and a grant.
ghost use Rattle.std.specs.Prelude.{◌≡◌};
ghost use Rattle.grant_desk.specs.Parts.{asks};

use lcm_events::Verb;

/// A part of a grant request, and of a grant.
///
/// Source: SOL 003 9.5.2.2 (GrantRequest), 9.5.2.3 (Grant).
#[derive(Clone, Copy)]
pub enum Part {
    /// `addResources`: what is created.
    Add,
    /// `removeResources`: what is removed.
    Remove,
    /// `updateResources`: what is started or stopped.
    Update,
}

/// Whether a change with this verb is asked for in this part.
pub fn asks(part: Part, verb: Verb) -> bool
    ensures { result ≡ asks part verb }
{
    match part {
        Part::Add => matches!(verb, Verb::Create),
        Part::Remove => matches!(verb, Verb::Remove),
        Part::Update => matches!(verb, Verb::Start | Verb::Stop),
    }
}
