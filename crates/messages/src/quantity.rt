// A signed quantity, in two's complement: deltas are added modulo 2^64.
ghost use Rattle.messages.specs.Quantity.{quantity_algebra};

use crate::kind::Kind;

pub struct Quantity;

impl Kind for Quantity {
    ghost algebra = { quantity_algebra };

    fn number() -> u8 {
        1
    }

    fn start() -> u64 {
        0
    }

    fn act(value: u64, delta: u64) -> u64 {
        value.wrapping_add(delta)
    }

    fn join(earlier: u64, later: u64) -> u64 {
        earlier.wrapping_add(later)
    }
}
