// What an update, a query and a page do to blocks of any content, as definitions.
#![tactic(auto)]

pub mod cause;
pub mod layer;
pub mod refusal;
pub mod verdict;
