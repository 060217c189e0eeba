// Every list of calls on one book, and the law that its trace keeps.
#![tactic(auto)]

pub mod run;
pub mod turn;
