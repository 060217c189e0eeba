// What an update has taken so far.
#[derive(Clone, Copy)]
pub struct Progress {
    // The block numbers from this one on are free.
    pub next_free: u32,
    // The tree writes, modulo 2^64.
    pub tree_writes: u64,
}
