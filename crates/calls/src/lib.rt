// The calls of a book, what it answers, and what is seen of it after each call.
#![tactic(auto)]

pub mod answer;
pub mod call;
pub mod part;
pub mod point;
pub mod refusal;
