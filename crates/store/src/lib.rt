// One ordered store of one kind on one device. A call that has a law stands beside its body, a function apart: the law is shown once from the
// body's clause, whatever exits the body has.
#![tactic(auto)]

pub mod asking;
pub mod conditions;
pub mod fault;
pub mod formatting;
pub mod opening;
pub mod paging;
pub mod report;
pub mod store;
pub mod updating;
pub mod workspace;
