// Trials of the devices: what the tests of crate `blocks` are, in a crate of their own.
#![tactic(auto)]

#[cfg(test)]
mod order;
#[cfg(test)]
mod sizes;
#[cfg(test)]
mod wrapping;
