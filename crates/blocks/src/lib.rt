// Devices of 4,096-byte blocks that count their reads and writes.
#![tactic(auto)]

pub mod device;
pub mod faulty;
pub mod limits;
pub mod memory;
pub mod refusal;
pub mod state;
