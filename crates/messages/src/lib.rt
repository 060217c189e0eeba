// Messages to keys, how they fold into one another, and ordered lists of entries.
#![tactic(auto)]

pub mod entry;
pub mod examples;
pub mod kind;
pub mod latest_day;
pub mod list;
pub mod message;
pub mod quantity;
pub mod span;
