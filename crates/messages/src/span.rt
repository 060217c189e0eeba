// A span of keys.

// The keys from `low` to just below `high`.
#[derive(Clone, Copy, PartialEq, Eq, Debug)]
pub struct Span {
    pub low: u32,
    pub high: u64,
}
