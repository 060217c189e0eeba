// The bench that queries, pages and updates work on: all the room that they need.
ghost use Rattle.std.specs.Prelude.{◌≡◌, ◌+◌, ◌<◌, [], true, is_ok, IfOk};
ghost use Rattle.node_ops.specs.CodeOf.{code_of};
ghost use Rattle.nodes.specs.Roots.{empty_leaf};
ghost use Rattle.nodes.specs.Shapes.{IsInner, MessagesFit};
ghost use Rattle.nodes.specs.Views.{view};
ghost use Rattle.plan.specs.Queries.{place_among};
ghost use Rattle.plan.specs.Steps.{fetch_child};
ghost use Rattle.steps.specs.Outcomes.{image_of, outcome, SameAllowance};

use crate::access::fetch_child;
use crate::gathering::Gathering;
use crate::scratch::Scratch;
use blocks::device::Device;
use messages::kind::Kind;
use node_ops::children::child_for;
use nodes::node::Node;
use nodes::root::Root;
use plan::cause::Cause;
use std::alloc::{AllocError, Global};

#[derive(Drop)]
pub struct Bench {
    // The node below the root that the way down has come to.
    pub here: Node,
    // The node that is read next, or the one that was left last.
    pub beside: Node,
    pub scratch: Scratch,
    pub gathering: Gathering,
}

impl Bench {
    // A bench with nothing on it. Only here may memory be short.
    pub fn new(heap: Global) -> Result<Bench, AllocError>
        ensures here { IfOk result (λ b. view b.here ≡ empty_leaf 0 0) }
        ensures beside { IfOk result (λ b. view b.beside ≡ empty_leaf 0 0) }
        ensures gathered { IfOk result (λ b. b.gathering.gathered.items ≡ []) }
        ensures page { IfOk result (λ b. b.gathering.entries.items ≡ []) }
    {
        Ok(Bench {
            here: Node::new(heap)?,
            beside: Node::new(heap)?,
            scratch: Scratch::new(heap)?,
            gathering: Gathering::new(heap)?,
        })
    }

    // Goes from the root to its child that takes the key.
    pub(crate) fn enter<D: Device, K: Kind>(
        &mut self,
        device: &mut D,
        root: &Root,
        key: u32,
    ) -> Result<(), Cause<D::Fault>>
        requires { IsInner root.now.node }
        ensures value { outcome D.Device result device.new (λ d _. record { image = d; child = view self.new.here }) ≡ fetch_child (code_of K.Kind.algebra) (image_of D.Device device.old) root.now.next_free (view root.now.node) (place_among (view root.now.node).frame.pivots key) }
        ensures allowance { SameAllowance D.Device device.old device.new }
        ensures level { is_ok result ≡ true → self.new.here.level + 1 ≡ root.now.node.level }
        ensures messages { is_ok result ≡ true → MessagesFit self.new.here }
        ensures past { is_ok result ≡ true → key < root.now.node.span.high → key < self.new.here.span.high }
        ensures gathering { self.new.gathering ≡ self.old.gathering }
    {
        fetch_child::<D, K>(
            device,
            &mut self.scratch.block,
            root.next_free,
            &root.node,
            child_for(&root.node, key),
            &mut self.here,
        )
    }

    // Goes from `here` to its child that takes the key, and leaves the parent `beside`.
    pub(crate) fn go_down<D: Device, K: Kind>(
        &mut self,
        device: &mut D,
        next_free: u32,
        key: u32,
    ) -> Result<(), Cause<D::Fault>>
        requires { IsInner self.old.here }
        ensures value { outcome D.Device result device.new (λ d _. record { image = d; child = view self.new.here }) ≡ fetch_child (code_of K.Kind.algebra) (image_of D.Device device.old) next_free (view self.old.here) (place_among (view self.old.here).frame.pivots key) }
        ensures allowance { SameAllowance D.Device device.old device.new }
        ensures level { is_ok result ≡ true → self.new.here.level + 1 ≡ self.old.here.level }
        ensures messages { is_ok result ≡ true → MessagesFit self.new.here }
        ensures past { is_ok result ≡ true → key < self.old.here.span.high → key < self.new.here.span.high }
        ensures left { is_ok result ≡ true → self.new.beside ≡ self.old.here }
        ensures gathering { self.new.gathering ≡ self.old.gathering }
    {
        fetch_child::<D, K>(
            device,
            &mut self.scratch.block,
            next_free,
            &self.here,
            child_for(&self.here, key),
            &mut self.beside,
        )?;
        std::mem::swap(&mut self.here, &mut self.beside);
        Ok(())
    }
}
