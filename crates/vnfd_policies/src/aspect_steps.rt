//! The steps of an aspect by name.
ghost use Rattle.std.specs.Prelude.{map};
ghost use Rattle.serde_json.specs.View.{view};
ghost use Rattle.vnfd_policies.specs.Aspects.{steps};
ghost use Rattle.vnfd_policies.specs.Deltas.{AreSameSteps};

use serde_json::Value;
use vnfd_document::Entry;

/// An aspect, with the names of its steps, each once.
#[derive(Drop)]
pub struct Steps<'a> {
    pub aspect: Entry<'a>,
    pub names: Vec<&'a Value>,
    ghost same: { AreSameSteps (map (λ v. view v.now) names.items) (steps (view aspect.value.now)) },
}
