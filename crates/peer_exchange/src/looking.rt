//! How long a call of an exchange may wait now.
ghost use Rattle.std.specs.Prelude.{◌≡◌, ◌<◌, ◌^◌, IfSome};
ghost use Rattle.peer_exchange.specs.Exchanges.{IsInTime, look_at};

use edge_limits::{Exchange, exchange_limit};
use net_calls::Stopwatch;

/// A look at the stopwatch before a call.
#[derive(Clone, Copy, PartialEq, Eq, Debug)]
pub struct Look {
    /// Milliseconds that the call may wait.
    pub wait: u32,
    /// The milliseconds that the stopwatch showed.
    pub now: u64,
}

/// How long the next call of an exchange that began then may wait; none where its time is over or the stopwatch shows
/// nothing.
pub fn look_now<T: Stopwatch>(watch: &mut T, limits: Exchange, began: u64) -> Option<Look>
    requires { limits.silence < 2 ^ 32 }
    ensures value { T.tells → result ≡ look_at limits began (T.shows watch.old) }
    ensures shown { T.tells → result ≡ look_at limits began (T.shown watch.new) }
    ensures in_time { IfSome result (IsInTime limits began) }
{
    let now = watch.millis()?;
    let wait = exchange_limit(limits, began, now)?;
    Some(Look { wait, now })
}
