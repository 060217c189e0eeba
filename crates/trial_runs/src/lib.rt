// Runs of updates on stores, for the trial programs: on which cards, which updates, in which order, what they cost, and digests of what they leave.
#![tactic(auto)]

pub mod cards;
pub mod cost;
pub mod digest;
pub mod fresh;
pub mod order;
pub mod run;
