// The children of an inner node: their blocks and spans, and the one with most pending messages.
ghost use Rattle.std.specs.Prelude.{◌≡◌, ◌<◌, ◌≤◌, length, vec_len, slice_index, take_while, nat_le};
ghost use Rattle.nodes.specs.Shapes.{IsInner};
ghost use Rattle.nodes.specs.Views.{view};
ghost use Rattle.plan.specs.Queries.{place_among};
ghost use Rattle.plan.specs.Steps.{child_block, child_low, child_high, pending_at, busiest};
ghost use Rattle.node_ops.specs.Spans.{SpansAllKeys};

use messages::list::place_of;
use messages::span::Span;
use nodes::node::Node;

// Where a child of an inner node stands.
#[derive(Clone, Copy, PartialEq, Eq, Debug)]
pub struct Child {
    pub block: u32,
    pub span: Span,
}

// The number at a place, 0 past the last.
fn number_at(numbers: &[u32], place: usize) -> u32
    ensures { result ≡ slice_index numbers.now place }
{
    numbers.get(place).copied().unwrap_or(0)
}

// The first key of the child at place `j`, 0 past the last.
fn child_low(node: &Node, j: usize) -> u32
    ensures { result ≡ child_low (view node.now) j }
{
    match j.checked_sub(1) {
        None => node.span.low,
        Some(before) => number_at(&node.pivots, before),
    }
}

// The key just past those of the child at place `j`: the next pivot, or the node's own end.
fn child_high(node: &Node, j: usize) -> u64
    ensures { result ≡ child_high (view node.now) j }
{
    node.pivots
        .get(j)
        .map_or(node.span.high, |pivot| u64::from(*pivot))
}

// Where the child at place `j` stands: in block 0 past the last.
pub fn child_at(node: &Node, j: usize) -> Child
    ensures block { result.block ≡ child_block (view node.now) j }
    ensures low { result.span.low ≡ child_low (view node.now) j }
    ensures high { result.span.high ≡ child_high (view node.now) j }
{
    Child {
        block: number_at(&node.children, j),
        span: Span {
            low: child_low(node, j),
            high: child_high(node, j),
        },
    }
}

// The place of the child with most pending messages, the lowest at a tie. The children are passed from the last to the first, so that
// each bound between them is looked up once. Where the span is that of all keys, a message is pending for the child that is found.
pub fn busiest_child(node: &Node) -> usize
    requires { IsInner node.now }
    ensures value { result ≡ busiest (view node.now) }
    ensures within { result < vec_len node.now.children }
    ensures some { SpansAllKeys (view node.now) → 0 < vec_len node.now.messages → 0 < pending_at (view node.now) result }
{
    let children = node.children.len();
    let mut best = children;
    let mut most = 0;
    let mut upper = place_of(&node.messages, node.span.high);
    'children: for j in (0..children).rev() {
        let lower = place_of(&node.messages, u64::from(child_low(node, j)));
        let pending = upper.saturating_sub(lower);
        if most <= pending {
            best = j;
            most = pending;
        }
        upper = lower;
    }
    best
}

// How many pivots at the front are at or below a key.
fn at_or_below(pivots: &[u32], key: u32) -> usize
    ensures { result ≡ length (take_while (λ pivot. nat_le pivot key) pivots.now) }
{
    pivots.iter().take_while(|pivot| **pivot <= key).count()
}

// The place of the child that takes a key.
pub fn child_for(node: &Node, key: u32) -> usize
    ensures { result ≡ place_among (view node.now).frame.pivots key }
{
    at_or_below(&node.pivots, key)
}
