// What each line of an input is answered, as text.
#![tactic(auto)]

pub mod output;
pub mod reply;
