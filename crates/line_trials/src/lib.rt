// Trials of lines, fields and replies, in a crate of their own.
#![tactic(auto)]

#[cfg(test)]
mod output;
#[cfg(test)]
mod parsing;
#[cfg(test)]
mod reading;
