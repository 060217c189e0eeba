// New stores.
ghost use Rattle.std.specs.Prelude.{◌≤◌, []};
ghost use Rattle.bridge.specs.Work.{AllSound};
ghost use Rattle.messages.specs.Quantity.{quantity_algebra};
ghost use Rattle.plan.specs.Images.{image};
ghost use Rattle.store.specs.Views.{contents};
ghost use Rattle.store_laws.specs.Held.{Holds};

use blocks::device::Device;
use messages::quantity::Quantity;
use store::formatting::format;
use store::store::Store;
use store::workspace::Workspace;

// Formats a device and opens a store of quantities on it, which holds nothing where the device has room, allowance and sound blocks.
pub fn new_store<D: Device>(device: D, workspace: Workspace) -> Store<D, Quantity>
    ensures { AllSound (image (D.Device.meaning device)) → 4 ≤ (D.Device.meaning device).size → 4 ≤ (D.Device.meaning device).allowance → Holds quantity_algebra (contents D.Device result) [] }
{
    let mut device = device;
    let mut workspace = workspace;
    let _ = format::<D, Quantity>(&mut device, &mut workspace);
    Store::open(device, workspace)
}
