// What a step does to nodes in memory: the choice of a child, a new child, a batch that moves down.
#![tactic(auto)]

pub mod children;
pub mod moves;
pub mod node_block;
pub mod paging;
pub mod pending;
