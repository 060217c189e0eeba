// A page: the entries of a range of keys, as far as the leaf of the first key goes.
ghost use Rattle.std.specs.Prelude.{◌≡◌, ℕ, ◌<◌, ◌≤◌, [], IfOk, Some, vec_len};
ghost use Rattle.node_ops.specs.CodeOf.{code_of};
ghost use Rattle.nodes.specs.Shapes.{IsInner, MessagesFit};
ghost use Rattle.nodes.specs.Views.{view};
ghost use Rattle.plan.specs.Pages.{page_from};
ghost use Rattle.steps.specs.Outcomes.{image_of, outcome, paged, SameAllowance};
ghost use Rattle.store_plan.specs.Pages.{GoesOn};

use crate::bench::Bench;
use blocks::device::Device;
use messages::kind::Kind;
use nodes::root::Root;
use plan::cause::Cause;
use store_plan::page::Page;

impl Bench {
    // A page from the root on, which stays as it is. Its entries are in the gathering afterwards.
    pub fn page<D: Device, K: Kind>(
        &mut self,
        device: &mut D,
        root: &Root,
        first: u32,
        last: u32,
    ) -> Result<Page, Cause<D::Fault>>
        requires inner { IsInner root.now.node }
        requires level { root.now.node.level ≤ 8 }
        requires few { MessagesFit root.now.node }
        requires within { first < root.now.node.span.high }
        ensures value { outcome D.Device result device.new (paged self.new.gathering.entries.items) ≡ page_from (code_of K.Kind.algebra) root.now.node.level (image_of D.Device device.old) root.now.next_free (view root.now.node) first last [] 0 }
        ensures allowance { SameAllowance D.Device device.old device.new }
        ensures count { IfOk result (λ p. (p.entries ≡ vec_len self.new.gathering.entries) × (p.entries ≤ 2304)) }
        ensures onward { IfOk result (GoesOn first last) }
    {
        self.gathering.gathered.clear();
        self.enter::<D, K>(device, root, first)?;
        self.gathering
            .gather::<K>(&root.node, &self.here, first, last);
        let height = u32::from(root.node.level);
        'down: for _reads in 1..height {
            self.go_down::<D, K>(device, root.next_free, first)?;
            self.gathering
                .gather::<K>(&self.beside, &self.here, first, last);
        }
        Ok(
            self.gathering
                .end_page::<K>(&self.here, first, last, height),
        )
    }
}
