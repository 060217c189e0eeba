// The parts of a node's block that every node has, and the rules on them: header, numbers and tables of entries.
#![tactic(auto)]

pub mod entries;
pub mod header;
pub mod header_rules;
pub mod limits;
pub mod mark;
pub mod numbers;
pub mod place;
pub mod rule;
