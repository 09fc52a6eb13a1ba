//! How long a record of the journal may be.

/// Bytes of a record's content. The largest plan fits.
pub const MAX_RECORD: usize = 65_536;
