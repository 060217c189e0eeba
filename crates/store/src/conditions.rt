// When a device may be formatted, and when a store may take an update.
ghost use Rattle.std.specs.Prelude.{◌≡◌, ◌+◌, ◌*◌, ◌<◌, ◌≤◌, OnOk, vec_len};
ghost use Rattle.messages.specs.Outcomes.{ok_unless};
ghost use Rattle.nodes.specs.Roots.{view_root};
ghost use Rattle.store_plan.specs.Openings.{format_refusal};
ghost use Rattle.store_plan.specs.Updates.{update_refusal};
ghost use Rattle.steps.specs.Outcomes.{image_of, allowance_of};

use blocks::device::Device;
use blocks::state::State;
use nodes::root::Root;
use plan::refusal::StoreRefusal;
use rules::limits::{MOST_CHILDREN, MOST_LEVEL, MOST_UPDATES};

// On a smaller device no update would find the free blocks that it asks for.
const LEAST_BLOCKS: u32 = 4;

// Whether this device may be formatted; else the first condition that fails.
pub fn check_format<D: Device>(device: &mut D) -> Result<(), StoreRefusal>
    ensures value { result ≡ ok_unless (format_refusal (image_of D.Device device.old) (allowance_of D.Device device.old)) tt }
    ensures same { D.Device.meaning device.new ≡ D.Device.meaning device.old }
    ensures allowance { OnOk result (2 ≤ allowance_of D.Device device.old) }
{
    if device.size() < LEAST_BLOCKS {
        return Err(StoreRefusal::NoRoom);
    }
    if device.allowance() < 2 {
        return Err(StoreRefusal::Spent);
    }
    if device.state(0) == State::Lost || device.state(1) == State::Lost {
        return Err(StoreRefusal::Lost);
    }
    Ok(())
}

// Whether a store with this root on this device may take an update; else the first condition that fails.
pub fn check_update<D: Device>(device: &mut D, root: &Root) -> Result<(), StoreRefusal>
    requires level { root.now.node.level ≤ 8 }
    requires counted { root.now.updates ≤ 4294967296 }
    ensures value { result ≡ ok_unless (update_refusal (view_root root.now) (D.Device.meaning device.old).size (allowance_of D.Device device.old)) tt }
    ensures same { D.Device.meaning device.new ≡ D.Device.meaning device.old }
    ensures counted { OnOk result (root.now.updates + 1 ≤ 4294967296) }
    ensures level { OnOk result (8 ≤ root.now.node.level → vec_len root.now.node.children ≤ 7) }
    ensures blocks { OnOk result (root.now.next_free + (root.now.node.level + 1) ≤ (D.Device.meaning device.old).size) }
    ensures allowance { OnOk result (2 * root.now.node.level + 1 ≤ allowance_of D.Device device.old) }
{
    let level = root.node.level;
    if root.updates == MOST_UPDATES {
        return Err(StoreRefusal::FullCount);
    }
    if device.size().saturating_sub(root.next_free) < u32::from(level) + 1 {
        return Err(StoreRefusal::NoRoom);
    }
    if root.node.children.len() == MOST_CHILDREN as usize && level == MOST_LEVEL {
        return Err(StoreRefusal::NoRoom);
    }
    if device.allowance() < 2 * u64::from(level) + 1 {
        return Err(StoreRefusal::Spent);
    }
    Ok(())
}
