// The blocks of a store of any kind hold its tree, in the format of nodes: each function here computes nothing, and its contract is a theorem.
#![tactic(auto)]

ghost use Rattle.held.specs.Laws.{NodesFit, NodesComeBack, StoreUpdates, StoreQueries, StorePages};

// A node of a tree below the root breaks no rule of the format where its parent says that it stands.
pub fn tree_nodes_fit_places()
    ensures { NodesFit }
{}

// The block of such a node is not refused, and is read back as that node.
pub fn nodes_come_back()
    ensures { NodesComeBack }
{}

// An update of blocks that hold a tree gives blocks that hold the updated tree, with the counted reads and writes; on sound blocks it never stops.
pub fn updates_keep_the_tree()
    ensures { StoreUpdates }
{}

// A query of blocks that hold a tree answers what the tree answers, with the counted reads; on sound blocks it never stops.
pub fn queries_answer_the_tree()
    ensures { StoreQueries }
{}

// A page of blocks that hold a tree is the tree's page, with the counted reads; on sound blocks it never stops.
pub fn pages_answer_the_tree()
    ensures { StorePages }
{}
