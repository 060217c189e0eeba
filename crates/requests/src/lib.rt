// What the lines of an input ask for.
#![tactic(auto)]

pub mod input;
pub mod line;
pub mod text;
