// Which updates come, in which order.
ghost use Rattle.std.specs.Prelude.{◌≡◌};
ghost use Rattle.trial_runs.specs.Orders.{key_at, message_at};

use messages::message::Message;
use std::fmt;

// In each but the last, 1 is added at each key.
#[derive(Clone, Copy)]
pub enum Order {
    // The keys from one on: 1, 2, 3 and so on if that is 1.
    Rising { from: u32 },
    // The keys 2000, 1999, 1998 and so on.
    Falling,
    // All over the keys.
    Scattered,
    // All over the keys below 4096: puts, removals and deltas.
    Mixed,
}

impl Order {
    // The key of the update that comes after `i` others.
    pub fn key(self, i: u32) -> u32
        ensures { result ≡ key_at self i }
    {
        match self {
            Order::Rising { from } => from.wrapping_add(i),
            Order::Falling => 2000u32.wrapping_sub(i),
            Order::Scattered => i.wrapping_mul(2654435761),
            Order::Mixed => i.wrapping_mul(40503) % 4096,
        }
    }

    // Its message.
    pub fn message(self, i: u32) -> Message
        ensures { result ≡ message_at self i }
    {
        let n = u64::from(i);
        match self {
            Order::Mixed if i % 5 == 0 => Message::Put(n),
            Order::Mixed if i % 7 == 0 => Message::Remove,
            Order::Mixed => Message::Add(n.wrapping_neg()),
            Order::Rising { .. } | Order::Falling | Order::Scattered => Message::Add(1),
        }
    }
}

impl fmt::Display for Order {
    fn fmt<W: fmt::Write>(&self, f: &mut fmt::Formatter<W>) -> fmt::Result {
        match self {
            Order::Rising { .. } => write!(f, "rising"),
            Order::Falling => write!(f, "falling"),
            Order::Scattered => write!(f, "scattered"),
            Order::Mixed => write!(f, "mixed"),
        }
    }
}
