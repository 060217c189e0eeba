// What a store tells of itself.
#[derive(Clone, Copy, PartialEq, Eq, Debug, Default)]
pub struct Figures {
    // The updates that it has accepted.
    pub updates: u64,
    // The level of its root.
    pub height: u8,
    // The blocks that these updates have written, modulo 2^64.
    pub tree_writes: u64,
}
