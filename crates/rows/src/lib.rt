// Numbers and other values as rows of bytes, and tables of such rows.
#![tactic(auto)]

pub mod bytes;
pub mod entries;
pub mod numbers;
pub mod row;
pub mod sort;
pub mod table;
