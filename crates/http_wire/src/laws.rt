//! What holds of all bytes that wait for more, and of the limit of this crate, as contracts of calls that do nothing.
ghost use Rattle.std.specs.Prelude.{◌≡◌};
ghost use Rattle.http_wire.specs.Exact.{NothingRefusedWaits};

use crate::CONNECTION_REQUESTS;

/// Bytes that wait for more are no whole request and pass no limit, and they are malformed at most where they stop in a
/// request target within the first 16,384 bytes.
///
/// Source: own rule.
pub fn nothing_refused_waits()
    ensures { NothingRefusedWaits }
{}

/// The number of requests of one connection.
///
/// Source: own rule.
pub fn limits_are_as_stated()
    ensures { CONNECTION_REQUESTS ≡ 65536 }
{}
