// The steps of updates, queries and pages on a device.
#![tactic(auto)]

pub mod access;
pub mod bench;
pub mod gathering;
pub mod page;
pub mod progress;
pub mod query;
pub mod scratch;
pub mod sink;
pub mod step;
pub mod update;
