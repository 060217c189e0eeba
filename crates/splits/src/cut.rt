// The root that is cut in two, below a new one.
ghost use Rattle.std.specs.Prelude.{◌≡◌, ◌+◌, ◌<◌, [], ◌∷◌, vec_len, slice_index};
ghost use Rattle.nodes.specs.Shapes.{IsInner};
ghost use Rattle.nodes.specs.Views.{view};
ghost use Rattle.tree.specs.Operations.{lower_inner, upper_inner, new_root};

use crate::halves::split_inner;
use messages::span::Span;
use nodes::node::Node;
use rules::limits::MOST_CHILDREN;

// Empties the node, and makes it the parent of two halves, in the blocks `first` and `first + 1`.
fn make_parent(node: &mut Node, lower: &Node, upper: &Node, first: u32)
    requires level { lower.now.level < 255 }
    requires blocks { first < 4294967295 }
    ensures { view node.new ≡ record { frame = record { level = lower.now.level + 1; low = lower.now.span.low; high = upper.now.span.high; pivots = upper.now.span.low ∷ []; children = first ∷ (first + 1) ∷ [] }; messages = []; records = [] } }
{
    node.make_leaf(Span {
        low: lower.span.low,
        high: upper.span.high,
    });
    node.level = lower.level + 1;
    node.pivots.push_reserved(upper.span.low);
    node.children.push_reserved(first);
    node.children.push_reserved(first + 1);
}

// Cuts a root of 8 children. Its first 4 go with their messages to `lower`, the others to `upper`, and it becomes the root
// above them, one level higher, with the halves in the blocks `first` and `first + 1`.
pub fn cut_root(root: &mut Node, lower: &mut Node, upper: &mut Node, first: u32)
    requires inner { IsInner root.old }
    requires level { root.old.level < 255 }
    requires full { vec_len root.old.children ≡ MOST_CHILDREN }
    requires blocks { first < 4294967295 }
    ensures root { view root.new ≡ new_root (slice_index root.old.pivots.items 3) first (view root.old) }
    ensures lower { view lower.new ≡ lower_inner 3 (view root.old) }
    ensures upper { view upper.new ≡ upper_inner 3 (view root.old) }
    ensures span { root.new.span ≡ root.old.span }
    ensures level { root.new.level ≡ root.old.level + 1 }
    ensures children { vec_len root.new.children ≡ 2 }
    ensures messages { vec_len root.new.messages ≡ 0 }
{
    split_inner(root, upper);
    std::mem::swap(root, lower);
    make_parent(root, lower, upper, first);
}
