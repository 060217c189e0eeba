// Formatting a device for a store: an empty leaf and a root above it.
ghost use Rattle.std.specs.Prelude.{◌≡◌};
ghost use Rattle.steps.specs.Outcomes.{allowance_of, image_of, outcome, Spends};
ghost use Rattle.store_laws.specs.LaidOut.{FormatLaidOut};
ghost use Rattle.store_plan.specs.Openings.{formatted};

use crate::conditions::check_format;
use crate::workspace::Workspace;
use blocks::device::Device;
use messages::kind::Kind;
use plan::cause::Cause;
use rules::limits::ALL_KEYS;
use rules::mark::Mark;
use steps::access::{save_node, save_root};

// The body of formatting.
fn lay_out<D: Device, K: Kind>(
    device: &mut D,
    workspace: &mut Workspace,
) -> Result<(), Cause<D::Fault>>
    ensures value { outcome D.Device result device.new (λ d _. d) ≡ formatted K.Kind.algebra (image_of D.Device device.old) (allowance_of D.Device device.old) }
    ensures lowered { Spends 2 D.Device device.old device.new }
{
    check_format(device)?;
    let Workspace { root, bench } = workspace;
    bench.here.make_leaf(ALL_KEYS);
    save_node::<D, K>(device, &mut bench.scratch.block, 1, &bench.here)?;
    root.make_fresh(K::number());
    save_root(device, &mut bench.scratch.block, root, Mark::Closed)
}

// Whatever the device held is gone, if it is not refused. All is checked before anything is written.
pub fn format<D: Device, K: Kind>(
    device: &mut D,
    workspace: &mut Workspace,
) -> Result<(), Cause<D::Fault>>
    ensures value { outcome D.Device result device.new (λ d _. d) ≡ formatted K.Kind.algebra (image_of D.Device device.old) (allowance_of D.Device device.old) }
    ensures lowered { Spends 2 D.Device device.old device.new }
    ensures laid_out { FormatLaidOut K.Kind.algebra (image_of D.Device device.old) (allowance_of D.Device device.old) (outcome D.Device result device.new (λ d _. d)) }
{
    lay_out::<D, K>(device, workspace)
}
