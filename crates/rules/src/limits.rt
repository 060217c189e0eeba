// The sizes and limits of nodes.
use messages::span::Span;

// The bytes of a block.
pub use blocks::limits::BLOCK_BYTES as BLOCK_SIZE;

// The most messages or records that a block may hold.
pub const MOST_ENTRIES: usize = 256;

// The most messages that a node in memory holds: a full node takes a batch of 16.
pub const MOST_MESSAGES: usize = 272;

// A leaf with more records is split before messages come to it.
pub const ROOMY_LEAF: usize = 240;

// The children of an inner node below the root.
pub const LEAST_CHILDREN: u8 = 4;

pub const MOST_CHILDREN: u8 = 8;

// The level of the highest root.
pub const MOST_LEVEL: u8 = 8;

// The block number of the first block that a fresh store leaves free.
pub const FIRST_FREE: u32 = 2;

// The most updates that a store accepts.
pub const MOST_UPDATES: u64 = 4_294_967_296;

// One past the largest key.
pub const KEYS_END: u64 = 4_294_967_296;

// Every key.
pub const ALL_KEYS: Span = Span {
    low: 0,
    high: KEYS_END,
};
