// What a run cost.
ghost use Rattle.std.specs.Prelude.{◌≡◌};
ghost use Rattle.store.specs.Views.{contents};
ghost use Rattle.trial_runs.specs.Costs.{cost_of};

use blocks::device::Device;
use messages::kind::Kind;
use std::fmt;
use store::store::Store;
use store_plan::figures::Figures;

// The store's figures just before closing, and the device's counts after it.
#[derive(Clone, Copy)]
pub struct Cost {
    pub figures: Figures,
    pub reads: u64,
    pub writes: u64,
}

// Closes a store, and gives what it cost.
pub fn close<D: Device + Drop, K: Kind>(store: Store<D, K>) -> Cost
    ensures { result ≡ cost_of (contents D.Device store) (D.Device.meaning store.device).allowance }
{
    let figures = store.figures();
    let (mut device, _workspace) = store.close();
    Cost {
        figures,
        reads: device.reads(),
        writes: device.writes(),
    }
}

impl fmt::Display for Cost {
    fn fmt<W: fmt::Write>(&self, f: &mut fmt::Formatter<W>) -> fmt::Result {
        let Cost {
            figures,
            reads,
            writes,
        } = *self;
        let Figures {
            updates,
            height,
            tree_writes,
        } = figures;
        write!(
            f,
            "updates {updates}, height {height}, tree writes {tree_writes}, reads {reads}, writes {writes}"
        )
    }
}
