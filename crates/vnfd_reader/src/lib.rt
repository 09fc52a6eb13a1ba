//! Descriptors read: what bytes are as a descriptor, or the first thing that is wrong with them.
#![tactic(auto)]

mod counts;
mod parts;
mod steps;

ghost use Rattle.std.specs.Prelude.{IfOk};
ghost use Rattle.vnfd_document.specs.Checks.{Gives};
ghost use Rattle.lcm_model.specs.Descriptors.{IsValid};
ghost use Rattle.vnfd_reader.specs.Answer.{answer};

use crate::parts::descriptor;
use lcm_events::Vnfd;
use std::alloc::Global;
pub use vnfd_document::VnfdFault;
use vnfd_document::read_document;

/// Reads a descriptor: one JSON object with node templates and policies, at most 1,048,576 bytes.
///
/// Refusals: the first thing that is wrong, in the order of docs/DESCRIPTORS.md; `Memory`.
/// Source: SOL 001, as JSON; order and limits are our own.
#[tactic(auto, unfolding(crate::specs::Answer::answer))]
pub fn read(alloc: Global, bytes: &[u8]) -> Result<Vnfd, VnfdFault>
    ensures answer { Gives result (answer bytes.now) }
    ensures valid { IfOk result (λ vnfd. IsValid vnfd) }
{
    let document = read_document(alloc, bytes)?;
    descriptor(alloc, &document)
}
