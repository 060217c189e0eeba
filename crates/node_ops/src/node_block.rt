// A node and its block, as the plan of an update sees them.
ghost use Rattle.std.specs.Prelude.{◌≡◌, ◌≤◌, true, is_ok, vec_len};
ghost use Rattle.node_ops.specs.CodeOf.{code_of};
ghost use Rattle.messages.specs.Outcomes.{ok_unless};
ghost use Rattle.nodes.specs.Shapes.{IsReadAt};
ghost use Rattle.nodes.specs.Views.{view};
ghost use Rattle.plan.specs.Codes.{decoded};

use messages::kind::Kind;
use messages::span::Span;
use nodes::node::Node;
use rules::limits::BLOCK_SIZE;
use rules::place::Place;
use rules::rule::Rule;

// Takes over the node of a block where one of a level and span is expected, or tells the first rule that the block breaks.
pub fn read_node<K: Kind>(
    block: &[u8; BLOCK_SIZE],
    level: u8,
    span: Span,
    next_free: u32,
    node: &mut Node,
) -> Result<(), Rule>
    ensures answer { result ≡ ok_unless ((code_of K.algebra).fault level span.low span.high next_free block.now) tt }
    ensures node { is_ok result ≡ true → view node.new ≡ decoded (code_of K.algebra) level span.low span.high block.now }
    ensures sizes { is_ok result ≡ true → IsReadAt level node.new }
    ensures span { is_ok result ≡ true → node.new.span ≡ span }
{
    let place = Place {
        level,
        span,
        kind: K::number(),
        next_free,
    };
    node.read(&place, block)
}

// Fills the block with a node.
pub fn write_node<K: Kind>(node: &Node, block: &mut [u8; BLOCK_SIZE])
    ensures { block.new ≡ (code_of K.algebra).encode (view node.now) }
{
    node.write(K::number(), block);
}
