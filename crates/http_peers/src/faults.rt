//! Why a request to a peer has no answer.
ghost use Rattle.std.specs.Prelude.{◌≡◌};
ghost use Rattle.http_peers.specs.Sent.{fault_by};

use crate::targets::TargetFault;
use peer_exchange::Lost;

/// Why a request to a peer has no answer.
#[derive(Clone, Copy, PartialEq, Eq, Debug)]
pub enum CallFault {
    /// It leads nowhere: no address was set, or what is told is none.
    NoTarget,
    /// The network gave no connection.
    Unreached,
    /// The exchange on the connection was lost, for this cause.
    Lost(Lost),
    /// There was no memory for the request.
    Memory,
}

/// The same, of a request that has no target.
pub fn fault_of(fault: TargetFault) -> CallFault
    ensures { result ≡ fault_by fault }
{
    match fault {
        TargetFault::NoTarget => CallFault::NoTarget,
        TargetFault::Memory => CallFault::Memory,
    }
}
