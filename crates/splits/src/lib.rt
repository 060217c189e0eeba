// Nodes in memory that are split in two: a leaf, an inner node, the root.
#![tactic(auto)]

pub mod cut;
pub mod full;
pub mod halves;
pub mod tail;
