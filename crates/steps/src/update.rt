// An update that was accepted: the root is cut if it is full, the message joins it, and steps follow.
ghost use Rattle.std.specs.Prelude.{◌≡◌, ◌+◌, ◌*◌, ◌<◌, ◌≤◌, false, true, is_ok, vec_len};
ghost use Rattle.node_ops.specs.CodeOf.{code_of};
ghost use Rattle.node_ops.specs.Spans.{SpansAllKeys};
ghost use Rattle.nodes.specs.Shapes.{IsInner, MessagesFit};
ghost use Rattle.nodes.specs.Views.{view};
ghost use Rattle.plan.specs.Steps.{settle, cut_if_full, updated};
ghost use Rattle.steps.specs.Allowances.{Spent};
ghost use Rattle.steps.specs.Outcomes.{allowance_of, image_of, outcome, settled, Spends};

use crate::access::save_counted;
use crate::bench::Bench;
use crate::progress::Progress;
use crate::step::make_step;
use blocks::device::Device;
use messages::entry::Entry;
use messages::kind::Kind;
use messages::message::Message;
use node_ops::moves::join;
use nodes::node::Node;
use nodes::root::Root;
use plan::cause::Cause;
use rules::limits::{MOST_CHILDREN, MOST_ENTRIES};
use splits::cut::cut_root;

impl Bench {
    // Makes the steps from the root on. The root itself stays in memory.
    fn settle<D: Device, K: Kind>(
        &mut self,
        device: &mut D,
        progress: &mut Progress,
        root: &mut Node,
    ) -> Result<(), Cause<D::Fault>>
        requires allowance { 2 * root.old.level ≤ allowance_of D.Device device.old }
        requires inner { IsInner root.old }
        requires room { vec_len root.old.children < MOST_CHILDREN }
        requires blocks { progress.old.next_free + root.old.level ≤ 65536 }
        ensures value { outcome D.Device result device.new (λ d _. settled progress.new.next_free progress.new.tree_writes (view root.new) d) ≡ settle (code_of K.Kind.algebra) (image_of D.Device device.old) progress.old.next_free progress.old.tree_writes (view root.old) }
        ensures lowered { Spends (2 * root.old.level) D.Device device.old device.new }
        ensures spent { is_ok result ≡ true → Spent (2 * root.old.level) progress.old.tree_writes progress.new.tree_writes (allowance_of D.Device device.old) (allowance_of D.Device device.new) }
        ensures level { root.new.level ≡ root.old.level }
        ensures span { root.new.span ≡ root.old.span }
        ensures few { is_ok result ≡ true → SpansAllKeys (view root.old) → vec_len root.old.messages ≤ MOST_ENTRIES + 1 → MessagesFit root.new }
    {
        if root.messages.len() <= MOST_ENTRIES {
            return Ok(());
        }
        let at = make_step::<D, K>(device, &mut self.scratch, progress, root, &mut self.here)?;
        self.sink::<D, K>(device, progress, at)
    }

    // Cuts a root of 8 children: its halves are written to the next two free blocks, the lower first.
    fn cut<D: Device, K: Kind>(
        &mut self,
        device: &mut D,
        progress: &mut Progress,
        root: &mut Node,
    ) -> Result<(), Cause<D::Fault>>
        requires allowance { 2 ≤ allowance_of D.Device device.old }
        requires inner { IsInner root.old }
        requires level { root.old.level ≤ 8 }
        requires full { vec_len root.old.children ≡ MOST_CHILDREN }
        requires blocks { progress.old.next_free + 1 < 65536 }
        ensures value { outcome D.Device result device.new (λ d _. settled progress.new.next_free progress.new.tree_writes (view root.new) d) ≡ cut_if_full (code_of K.Kind.algebra) (image_of D.Device device.old) progress.old.next_free progress.old.tree_writes (view root.old) }
        ensures lowered { Spends 2 D.Device device.old device.new }
        ensures spent { is_ok result ≡ true → Spent 2 progress.old.tree_writes progress.new.tree_writes (allowance_of D.Device device.old) (allowance_of D.Device device.new) }
        ensures level { root.new.level ≡ root.old.level + 1 }
        ensures messages { vec_len root.new.messages ≡ 0 }
        ensures span { root.new.span ≡ root.old.span }
    {
        let (lower, upper) = (&mut self.here, &mut self.beside);
        let block = &mut self.scratch.block;
        let first = progress.next_free;
        cut_root(root, lower, upper, first);
        save_counted::<D, K>(device, block, progress, first, lower)?;
        save_counted::<D, K>(device, block, progress, first + 1, upper)?;
        progress.next_free = first + 2;
        Ok(())
    }

    // Lets a message arrive at the root.
    fn arrive<D: Device, K: Kind>(
        &mut self,
        device: &mut D,
        progress: &mut Progress,
        root: &mut Node,
        arriving: Entry<Message>,
    ) -> Result<(), Cause<D::Fault>>
        requires allowance { 2 * root.old.level + 1 ≤ allowance_of D.Device device.old }
        requires blocks { progress.old.next_free + (root.old.level + 1) ≤ 65536 }
        requires inner { IsInner root.old }
        requires level { root.old.level ≤ 8 }
        requires few { MessagesFit root.old }
        ensures value { outcome D.Device result device.new (λ d _. settled progress.new.next_free progress.new.tree_writes (view root.new) d) ≡ updated (code_of K.Kind.algebra) (image_of D.Device device.old) progress.old.next_free progress.old.tree_writes (view root.old) arriving.key arriving.value }
        ensures lowered { Spends (2 * root.old.level) D.Device device.old device.new }
        ensures spent { is_ok result ≡ true → Spent (2 * root.old.level) progress.old.tree_writes progress.new.tree_writes (allowance_of D.Device device.old) (allowance_of D.Device device.new) }
        ensures span { root.new.span ≡ root.old.span }
        ensures few { is_ok result ≡ true → SpansAllKeys (view root.old) → MessagesFit root.new }
        ensures level { (root.old.level ≤ root.new.level) × (root.new.level ≤ root.old.level + 1) }
        ensures uncut { vec_len root.old.children < MOST_CHILDREN → root.new.level ≡ root.old.level }
    {
        if root.children.len() == MOST_CHILDREN as usize {
            self.cut::<D, K>(device, progress, root)?;
            // A root that was cut has no messages, so that no step is due.
            join::<K>(root, arriving);
            return Ok(());
        }
        join::<K>(root, arriving);
        self.settle::<D, K>(device, progress, root)
    }

    // Makes an update. On a fault what was written stands, and the root in memory is of no use any more: only its numbers stay as they were.
    pub fn update<D: Device, K: Kind>(
        &mut self,
        device: &mut D,
        root: &mut Root,
        arriving: Entry<Message>,
    ) -> Result<(), Cause<D::Fault>>
        requires allowance { 2 * root.old.node.level + 1 ≤ allowance_of D.Device device.old }
        requires blocks { root.old.next_free + (root.old.node.level + 1) ≤ 65536 }
        requires inner { IsInner root.old.node }
        requires level { root.old.node.level ≤ 8 }
        requires few { MessagesFit root.old.node }
        ensures value { outcome D.Device result device.new (λ d _. settled root.new.next_free root.new.tree_writes (view root.new.node) d) ≡ updated (code_of K.Kind.algebra) (image_of D.Device device.old) root.old.next_free root.old.tree_writes (view root.old.node) arriving.key arriving.value }
        ensures lowered { Spends (2 * root.old.node.level) D.Device device.old device.new }
        ensures spent { is_ok result ≡ true → Spent (2 * root.old.node.level) root.old.tree_writes root.new.tree_writes (allowance_of D.Device device.old) (allowance_of D.Device device.new) }
        ensures span { root.new.node.span ≡ root.old.node.span }
        ensures few { is_ok result ≡ true → SpansAllKeys (view root.old.node) → MessagesFit root.new.node }
        ensures level { (root.old.node.level ≤ root.new.node.level) × (root.new.node.level ≤ root.old.node.level + 1) }
        ensures uncut { vec_len root.old.node.children < MOST_CHILDREN → root.new.node.level ≡ root.old.node.level }
        ensures kept { (root.new.kind ≡ root.old.kind) × (root.new.updates ≡ root.old.updates) }
        ensures spared { is_ok result ≡ false → (root.new.next_free ≡ root.old.next_free) × (root.new.tree_writes ≡ root.old.tree_writes) }
    {
        let mut progress = Progress {
            next_free: root.next_free,
            tree_writes: root.tree_writes,
        };
        self.arrive::<D, K>(device, &mut progress, &mut root.node, arriving)?;
        root.next_free = progress.next_free;
        root.tree_writes = progress.tree_writes;
        Ok(())
    }
}
