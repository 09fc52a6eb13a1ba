//! What holds of all bytes, and of the limits, as contracts of calls that do nothing.
ghost use Rattle.std.specs.Prelude.{◌≡◌};
ghost use Rattle.http_frames.specs.Beginnings.{BeginOneWay, ChunksAreOneWay};
ghost use Rattle.http_frames.specs.Targets.{StopTwoWays, GoOnTwoWays};

use crate::{BODY_BYTES, CHUNKED_BYTES, HEAD_BYTES, HEAD_FIELDS};

/// A connection's bytes begin with a whole request, or there is none, or they are cut, or bad, or big, and no two of
/// these.
///
/// Source: own rule.
pub fn bytes_begin_one_way()
    ensures { BeginOneWay }
{}

/// As a chunked body, bytes are whole, or a part of one, or broken, or too much, and no two of these; where they are
/// whole, they have one content and one rest.
///
/// Source: own rule.
pub fn chunks_are_one_way()
    ensures { ChunksAreOneWay }
{}

/// Bytes that stop in a request target are cut or bad, and where more bytes follow than a head may have, big or bad.
///
/// Source: own rule.
pub fn targets_are_judged_at_their_end()
    ensures short { StopTwoWays }
    ensures long { GoOnTwoWays }
{}

/// The limits of a request, as numbers.
///
/// Source: own rule.
pub fn limits_are_as_stated()
    ensures head_bytes { HEAD_BYTES ≡ 16384 }
    ensures head_fields { HEAD_FIELDS ≡ 64 }
    ensures body_bytes { BODY_BYTES ≡ 1048576 }
    ensures chunked_bytes { CHUNKED_BYTES ≡ 8388608 }
{}
