// The latest of the days given: a delta replaces a smaller value.
ghost use Rattle.messages.specs.LatestDay.{latest_day_algebra};

use crate::kind::Kind;

pub struct LatestDay;

impl Kind for LatestDay {
    ghost algebra = { latest_day_algebra };

    fn number() -> u8 {
        2
    }

    fn start() -> u64 {
        0
    }

    fn act(value: u64, delta: u64) -> u64 {
        value.max(delta)
    }

    fn join(earlier: u64, later: u64) -> u64 {
        earlier.max(later)
    }
}
