//! What is answered where a request's body wasn't read.
ghost use Rattle.std.specs.Prelude.{IfOk};
ghost use Rattle.lcm_api.specs.Bodies.{IsRefusedBody};

use json_bodies::BodyFault;
use lcm_replies::{Reply, refusal, refusal_about};
use std::alloc::{AllocError, Global};

/// The refusal of a body that wasn't read.
pub fn refused_body(alloc: Global, fault: &BodyFault, last: bool) -> Result<Reply, AllocError>
    ensures { IfOk result (IsRefusedBody fault.now last) }
{
    match fault {
        BodyFault::Malformed => refusal(alloc, 400, "malformed JSON", last),
        BodyFault::Lacks(name) => refusal_about(alloc, 400, "missing ", name.as_str(), last),
        BodyFault::Wrong(name) => refusal_about(alloc, 400, "bad ", name.as_str(), last),
        BodyFault::Memory => Err(AllocError),
    }
}
