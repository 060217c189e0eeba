// Nodes that are full, and their split.
ghost use Rattle.std.specs.Prelude.{◌≡◌, ◌+◌, ◌<◌, ◌≤◌, true, false, vec_len};
ghost use Rattle.nodes.specs.Shapes.{RecordsLeaveRoom, ChildrenLeaveRoom};
ghost use Rattle.nodes.specs.Views.{view};
ghost use Rattle.splits.specs.Halves.{IsHalf};
ghost use Rattle.tree.specs.Operations.{lower_half, upper_half, split_key};
ghost use Rattle.tree.specs.Update.{is_full};

use crate::halves::{split_inner, split_leaf};
use nodes::node::Node;
use rules::limits::{MOST_CHILDREN, ROOMY_LEAF};

// Whether a node has to be split before messages come to it.
pub fn is_full(node: &Node) -> bool
    ensures value { result ≡ is_full (view node.now) }
    ensures leaf { result ≡ false → RecordsLeaveRoom node.now }
    ensures inner { result ≡ false → ChildrenLeaveRoom node.now }
{
    if node.level == 0 {
        node.records.len() > ROOMY_LEAF
    } else {
        node.children.len() == usize::from(MOST_CHILDREN)
    }
}

// Splits a full node in two and gives the key at which the upper half begins. The lower half stays, the other goes to `upper`.
pub fn split(node: &mut Node, upper: &mut Node) -> u32
    requires { is_full (view node.old) ≡ true }
    ensures key { result ≡ split_key node.old.level (view node.old) }
    ensures lower { view node.new ≡ lower_half node.old.level (view node.old) }
    ensures upper { view upper.new ≡ upper_half node.old.level (view node.old) }
    ensures lower_span { (node.new.span.low ≡ node.old.span.low) × (node.new.span.high ≡ result) }
    ensures upper_span { (upper.new.span.low ≡ result) × (upper.new.span.high ≡ node.old.span.high) }
    ensures lower_sizes { IsHalf node.old node.new }
    ensures upper_sizes { IsHalf node.old upper.new }
{
    if node.level == 0 {
        split_leaf(node, upper)
    } else {
        split_inner(node, upper)
    }
}
