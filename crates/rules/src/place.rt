// Where a node stands: what its parent and the store say of it.
use messages::span::Span;

#[derive(Clone, Copy, PartialEq, Eq, Debug)]
pub struct Place {
    // One below the parent's level.
    pub level: u8,
    // The node's keys.
    pub span: Span,
    // The number of the store's kind; of the root whatever byte its header has.
    pub kind: u8,
    // The block numbers from this one on are free.
    pub next_free: u32,
}
