// The root in memory: its node, and the numbers that its block has besides.
use crate::node::Node;

#[derive(Drop)]
pub struct Root {
    pub node: Node,
    // The number of the store's kind, as the block says: any byte, until opening compares it.
    pub kind: u8,
    // The block numbers from this one on are free.
    pub next_free: u32,
    // The updates that the store has accepted.
    pub updates: u64,
    // The blocks that updates have written, modulo 2^64.
    pub tree_writes: u64,
}
