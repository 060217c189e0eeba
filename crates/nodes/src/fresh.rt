// Making nodes: with room for all that they may ever hold, and as a store begins.
ghost use Rattle.std.specs.Prelude.{◌≡◌, IfOk};
ghost use Rattle.tree.specs.Nodes.{node};
ghost use Rattle.tree.specs.Operations.{fresh};
ghost use Rattle.nodes.specs.Roots.{empty_leaf, fresh_root, view_root};
ghost use Rattle.nodes.specs.Views.{view};

use crate::node::Node;
use crate::root::Root;
use messages::span::Span;
use rules::limits::{ALL_KEYS, FIRST_FREE, MOST_CHILDREN, MOST_ENTRIES, MOST_MESSAGES};
use std::alloc::{AllocError, Global};

impl Node {
    // An empty leaf for no keys. Only here may memory be short.
    pub fn new(heap: Global) -> Result<Node, AllocError>
        ensures { IfOk result (λ x. view x ≡ empty_leaf 0 0) }
    {
        Ok(Node {
            level: 0,
            span: Span { low: 0, high: 0 },
            pivots: Vec::with_capacity(heap, MOST_CHILDREN as usize - 1)?,
            children: Vec::with_capacity(heap, MOST_CHILDREN as usize)?,
            messages: Vec::with_capacity(heap, MOST_MESSAGES)?,
            records: Vec::with_capacity(heap, MOST_ENTRIES)?,
        })
    }

    // Empties the node, and makes it a leaf for the keys of a span.
    pub fn make_leaf(&mut self, span: Span)
        ensures { view self.new ≡ empty_leaf span.low span.high }
    {
        self.level = 0;
        self.span = span;
        self.pivots.clear();
        self.children.clear();
        self.messages.clear();
        self.records.clear();
    }

    // Empties the node, and makes it the root of a fresh tree: of level 1, with the one child 1, for all keys.
    fn make_first_root(&mut self)
        ensures { view self.new ≡ node fresh 0 }
    {
        self.make_leaf(ALL_KEYS);
        self.level = 1;
        self.children.push_reserved(1);
    }
}

impl Root {
    // A root as a store of a kind begins. Only here may memory be short.
    pub fn new(heap: Global, kind: u8) -> Result<Root, AllocError>
        ensures { IfOk result (λ x. view_root x ≡ fresh_root kind) }
    {
        let mut root = Root {
            node: Node::new(heap)?,
            kind,
            next_free: FIRST_FREE,
            updates: 0,
            tree_writes: 0,
        };
        root.make_fresh(kind);
        Ok(root)
    }

    // Makes the root what it is as a store of a kind begins.
    pub fn make_fresh(&mut self, kind: u8)
        ensures { view_root self.new ≡ fresh_root kind }
    {
        self.kind = kind;
        self.next_free = FIRST_FREE;
        self.updates = 0;
        self.tree_writes = 0;
        self.node.make_first_root();
    }
}
