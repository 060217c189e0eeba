// Steps from a node below the root, until it has at most 256 messages.
ghost use Rattle.std.specs.Prelude.{◌≡◌, ◌+◌, ◌*◌, ◌≤◌, true, is_ok};
ghost use Rattle.node_ops.specs.CodeOf.{code_of};
ghost use Rattle.nodes.specs.Shapes.{ChildrenLeaveRoom, IsInner};
ghost use Rattle.nodes.specs.Views.{view};
ghost use Rattle.plan.specs.Steps.{sink, step_due};
ghost use Rattle.steps.specs.Allowances.{Spent};
ghost use Rattle.steps.specs.Outcomes.{allowance_of, image_of, outcome, Spends};

use crate::access::save_counted;
use crate::bench::Bench;
use crate::progress::Progress;
use crate::step::make_step;
use blocks::device::Device;
use messages::kind::Kind;
use nodes::node::Node;
use plan::cause::Cause;
use rules::limits::MOST_ENTRIES;

// Whether a step is due from a node.
fn is_step_due(node: &Node) -> bool
    ensures value { result ≡ step_due (view node.now) }
    ensures inner { result ≡ true → IsInner node.now }
{
    node.level > 0 && node.messages.len() > MOST_ENTRIES
}

impl Bench {
    // Makes the steps from the node `here`, in block `first`, and writes each node that took a batch.
    pub(crate) fn sink<D: Device, K: Kind>(
        &mut self,
        device: &mut D,
        progress: &mut Progress,
        first: u32,
    ) -> Result<(), Cause<D::Fault>>
        requires allowance { 2 * self.old.here.level + 1 ≤ allowance_of D.Device device.old }
        requires inner { ChildrenLeaveRoom self.old.here }
        requires blocks { progress.old.next_free + self.old.here.level ≤ 65536 }
        ensures value { outcome D.Device result device.new (λ d _. record { image = d; next = progress.new.next_free; writes = progress.new.tree_writes }) ≡ sink (code_of K.Kind.algebra) self.old.here.level (image_of D.Device device.old) progress.old.next_free progress.old.tree_writes first (view self.old.here) }
        ensures lowered { Spends (2 * self.old.here.level + 1) D.Device device.old device.new }
        ensures spent { is_ok result ≡ true → Spent (2 * self.old.here.level + 1) progress.old.tree_writes progress.new.tree_writes (allowance_of D.Device device.old) (allowance_of D.Device device.new) }
        ensures next { progress.new.next_free ≤ progress.old.next_free + self.old.here.level }
    {
        // Nobody knows beforehand at which level the steps end.
        let mut at = first;
        'down: while is_step_due(&self.here) {
            let to = make_step::<D, K>(
                device,
                &mut self.scratch,
                progress,
                &mut self.here,
                &mut self.beside,
            )?;
            save_counted::<D, K>(device, &mut self.scratch.block, progress, at, &self.here)?;
            std::mem::swap(&mut self.here, &mut self.beside);
            at = to;
        }
        save_counted::<D, K>(device, &mut self.scratch.block, progress, at, &self.here)
    }
}
