// All the memory that a store ever needs, made before it is opened.
ghost use Rattle.std.specs.Prelude.{◌≡◌, IfOk};
ghost use Rattle.nodes.specs.Roots.{fresh_root, view_root};

use nodes::root::Root;
use std::alloc::{AllocError, Global};
use steps::bench::Bench;

// The root, and the bench that it is worked on.
#[derive(Drop)]
pub struct Workspace {
    pub(crate) root: Root,
    pub(crate) bench: Bench,
}

impl Workspace {
    // The root begins as a fresh one; opening and formatting give it its content. Only here may memory be short.
    pub fn new(heap: Global) -> Result<Workspace, AllocError>
        ensures { IfOk result (λ w. view_root w.root ≡ fresh_root 0) }
    {
        Ok(Workspace {
            root: Root::new(heap, 0)?,
            bench: Bench::new(heap)?,
        })
    }
}
