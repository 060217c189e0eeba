// What each call of a store does to its root and to blocks of any content, as definitions.
#![tactic(auto)]

pub mod figures;
pub mod page;
