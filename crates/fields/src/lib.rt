// Lines, their fields, and what a field is told as.
#![tactic(auto)]

pub mod line_reader;
pub mod lines;
mod numbers;
mod scan;
pub mod token;
