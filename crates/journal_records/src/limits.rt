// How long a journal's file, its batches and its records may be.

/// Bytes of the largest file. The closed gate stands before this place.
pub const MAX_FILE: u64 = 268_435_456;

/// Bytes of a record.
pub const MAX_RECORD: usize = vnfm_base::MAX_RECORD;

/// Bytes of the content of a batch.
pub const MAX_BATCH: usize = 131_072;

/// Bytes that a loading reads at once, or as many as the batch at hand lacks where that is more.
pub const BLOCK: usize = 65_536;
