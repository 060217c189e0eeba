// The cards that stores run on.
use blocks::limits::BLOCK_BYTES;

// 64 blocks.
pub const CARD_BYTES: usize = 64 * BLOCK_BYTES;

// More writes than any trial makes.
pub const PLENTY: u64 = 1_000_000;
