// The stock book: two stores, of quantities and of latest days by sheet, as one book.
#![tactic(auto)]

pub mod asking;
pub mod book;
pub mod opening;
pub mod readings;
pub mod rooms;
mod stores;
pub mod totals;
pub mod updating;
