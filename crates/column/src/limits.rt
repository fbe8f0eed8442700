// The limits of sources.

/// Columns of a source.
pub const MAX_COLUMNS: usize = 64;

/// Triplets of a delivery.
pub const MAX_BATCH: usize = 16;

/// Bytes of a run.
pub const MAX_RUN: u32 = 1_048_576;

/// Entries, or bytes of memory, of a source.
pub const MAX_MEMORY: usize = 2_147_483_647;
