// The sizes that every device shares.

// The bytes of a block.
pub const BLOCK_BYTES: usize = 4096;

// The most blocks that a device has.
pub const MAX_BLOCKS: usize = 65536;
