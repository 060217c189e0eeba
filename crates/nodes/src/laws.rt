// The laws of blocks, each the contract of a function that does nothing.
ghost use Rattle.nodes.specs.Laws.{NodeBlocksRoundTrip, RootBlocksRoundTrip};

// Below the root, good nodes and blocks that break no rule come back from one another.
pub fn node_blocks_round_trip()
    ensures { NodeBlocksRoundTrip }
{}

// The root and blocks that break no rule of it come back from one another.
pub fn root_blocks_round_trip()
    ensures { RootBlocksRoundTrip }
{}
