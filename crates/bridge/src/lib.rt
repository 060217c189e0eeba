// Where blocks hold a tree, what is done to the blocks is what is done to the tree: each function here computes nothing, and its contract is a theorem.
#![tactic(auto)]

ghost use Rattle.std.specs.Prelude.{ℕ};
ghost use Rattle.bridge.specs.Laws.{FreshBridge, UpdateBridge, QueryBridge, PageBridge};
ghost use Rattle.rules.specs.declared.rule.Rule.{Rule};

// Blocks hold the fresh tree where block 1 holds its empty leaf.
pub fn fresh_tree_is_stored()
    ensures rules { FreshBridge Rule }
    ensures numbers { FreshBridge ℕ }
{}

// An update of blocks that hold a tree gives blocks that hold the updated tree, with the counted reads and writes; on sound blocks it never stops.
pub fn updates_carry_over()
    ensures rules { UpdateBridge Rule }
    ensures numbers { UpdateBridge ℕ }
{}

// A query of blocks that hold a tree answers what the tree answers, with the counted reads; on sound blocks it never stops.
pub fn queries_carry_over()
    ensures rules { QueryBridge Rule }
    ensures numbers { QueryBridge ℕ }
{}

// A page of blocks that hold a tree is the tree's page, with the counted reads; on sound blocks it never stops.
pub fn pages_carry_over()
    ensures rules { PageBridge Rule }
    ensures numbers { PageBridge ℕ }
{}
