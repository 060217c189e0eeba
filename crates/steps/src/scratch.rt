// Room that a step works in.
ghost use Rattle.std.specs.Prelude.{◌≡◌, ◌≤◌, [], IfOk, vec_capacity};
ghost use Rattle.nodes.specs.Roots.{empty_leaf};
ghost use Rattle.nodes.specs.Views.{view};

use messages::entry::Entry;
use messages::list::MOST_MOVING;
use messages::message::Message;
use nodes::node::Node;
use rules::limits::BLOCK_SIZE;
use std::alloc::{AllocError, Global};

#[derive(Drop)]
pub struct Scratch {
    // A block on its way from or to the device.
    pub block: [u8; BLOCK_SIZE],
    // The half of a node that does not go on.
    pub other: Node,
    // The messages that move from a node to its child.
    pub batch: Vec<Entry<Message>>,
    ghost room: { 16 ≤ vec_capacity batch },
}

impl Scratch {
    // Room with nothing in it. Only here may memory be short.
    pub fn new(heap: Global) -> Result<Scratch, AllocError>
        ensures other { IfOk result (λ s. view s.other ≡ empty_leaf 0 0) }
        ensures batch { IfOk result (λ s. s.batch.items ≡ []) }
    {
        Ok(Scratch {
            block: [0; BLOCK_SIZE],
            other: Node::new(heap)?,
            batch: Vec::with_capacity(heap, MOST_MOVING)?,
        })
    }
}
