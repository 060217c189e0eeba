// So many updates of a store.
ghost use Rattle.std.specs.Prelude.{◌≤◌, List};
ghost use Rattle.messages.specs.declared.entry.Entry.{Entry};
ghost use Rattle.messages.specs.declared.message.Message.{Message};
ghost use Rattle.store.specs.Views.{contents};
ghost use Rattle.store_laws.specs.Held.{Holds};
ghost use Rattle.trial_runs.specs.Made.{Made};

use crate::order::Order;
use blocks::device::Device;
use messages::kind::Kind;
use store::store::Store;

// So many updates in an order.
#[derive(Clone, Copy)]
pub struct Run {
    pub order: Order,
    pub updates: u32,
}

// The runs whose outcome an independent model of the rules gives.
pub const MODEL_RUNS: [Run; 4] = [
    Run {
        order: Order::Rising { from: 1 },
        updates: 513,
    },
    Run {
        order: Order::Falling,
        updates: 2000,
    },
    Run {
        order: Order::Scattered,
        updates: 3000,
    },
    Run {
        order: Order::Mixed,
        updates: 4000,
    },
];

// Makes the updates until one is refused, and gives how many were accepted.
pub fn make_updates<D: Device, K: Kind>(store: &mut Store<D, K>, run: Run) -> u32
    ensures within { result ≤ run.updates }
    ensures made { (h : List (Entry Message)) → Holds K.Kind.algebra (contents D.Device store.old) h → Made K.Kind.algebra run h result (contents D.Device store.new) (D.Device.meaning store.new.device).allowance }
{
    for i in 0..run.updates {
        if store
            .update(run.order.key(i), run.order.message(i))
            .is_err()
        {
            return i;
        }
    }
    run.updates
}
