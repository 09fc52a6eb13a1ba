//! Where a request of HTTP/1.1 ends, and which of its bytes are its parts: pure functions over bytes that are held,
//! with the definitions of requests, of their framing, and of bytes that break it or pass a limit.
#![tactic(auto)]

pub mod chunks;
pub mod framing;
pub mod head;
mod laws;
pub mod lines;

pub use laws::{
    bytes_begin_one_way, chunks_are_one_way, limits_are_as_stated, targets_are_judged_at_their_end,
};

/// Bytes of a request's head, with the empty lines in front of it. A head of our routes has a few hundred.
pub const HEAD_BYTES: usize = 16_384;

/// Header fields of a request.
pub const HEAD_FIELDS: usize = 64;

/// Bytes of a request's body.
pub const BODY_BYTES: usize = 1_048_576;

/// Bytes of a chunked body with its size lines, extensions and trailer.
pub const CHUNKED_BYTES: usize = 8_388_608;

/// Places for header fields: more than `HEAD_BYTES` bytes can hold, so that the room never decides what a head is.
pub const FIELD_ROOM: usize = 5_462;
