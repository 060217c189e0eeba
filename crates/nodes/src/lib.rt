// Nodes of the tree in memory and as blocks of bytes: the rules that a block keeps, reading and writing.
#![tactic(auto)]

pub mod fresh;
pub mod laws;
pub mod node;
pub mod reading;
pub mod root;
pub mod root_block;
pub mod writing;
