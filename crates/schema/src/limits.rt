// How large a schema may be.

/// Nodes, the root included.
pub const MAX_NODES: usize = 256;

/// Leaves.
pub const MAX_LEAVES: usize = 64;

/// Levels below the root.
pub const MAX_LEVELS: usize = 16;

/// Bytes of a name.
pub const MAX_NAME: u64 = 255;

/// Type length, scale and precision are below this.
pub const NUMBER_LIMIT: u64 = 0x8000_0000;
