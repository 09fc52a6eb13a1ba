//! Room for the fields of a head.
ghost use Rattle.std.specs.Prelude.{◌≤◌, vec_len};
ghost use Rattle.http_frames.specs.declared.TheConstants.{FIELD_ROOM};

use http_frames::FIELD_ROOM;
use httparse::spans::{EMPTY_HEADER_SPAN, HeaderSpan};
use std::alloc::{AllocError, Global};

/// Places for the fields of a head, more than its bytes can hold.
#[derive(Drop)]
pub struct FieldRoom {
    pub places: Vec<HeaderSpan>,
    ghost many: { FIELD_ROOM ≤ vec_len places },
}

impl FieldRoom {
    /// Takes the room.
    pub fn new(alloc: Global) -> Result<FieldRoom, AllocError> {
        let mut places = Vec::with_capacity(alloc, FIELD_ROOM)?;
        places.resize(FIELD_ROOM, EMPTY_HEADER_SPAN)?;
        Ok(FieldRoom { places })
    }
}
