// The tree as a value, defined in specs/, and its laws: each function here computes nothing, and its contract is a theorem.
#![tactic(auto)]

ghost use Rattle.std.specs.Prelude.{ℕ};
ghost use Rattle.messages.specs.Algebra.{Algebra};
ghost use Rattle.tree.specs.Laws.{MapLaw, UpdateLaw, PageLaw, TotalLaw, SumLaw, ShapeLaw, BatchLaw, ChoiceLaw, SplitLaw, WearLaw, CostLaw, KnownRun};

// A query finds what the messages say of the key, in order, and reads at most as many blocks as the tree is high.
pub fn map_law_holds()
    ensures { MapLaw }
{}

// An update acts on what stood for its key, and every other key stands as before.
pub fn update_law_holds()
    ensures { UpdateLaw }
{}

// A page gives exactly the present keys of its part in rising order, and the first key past it; it reads one block a level.
pub fn page_law_holds()
    ensures { PageLaw }
{}

// A total meets every present key of its range once, in rising order.
pub fn total_law_holds()
    ensures { TotalLaw }
{}

// With amounts of at most 10^9 and at most 2^32 updates, each quantity and the sum of a range are the true numbers.
pub fn sum_law_holds()
    ensures { SumLaw }
{}

// No node of the tree breaks a rule.
pub fn shape_law_holds()
    ensures { ShapeLaw }
{}

// Each step of an update moves a full batch.
pub fn batch_law_holds()
    ensures { BatchLaw }
{}

// Messages go to the child with most pending, the lowest at a tie, and to the half with more, the lower at a tie.
pub fn choice_law_holds()
    ensures { ChoiceLaw }
{}

// A split loses nothing, and halves evenly.
pub fn split_law_holds()
    ensures { SplitLaw }
{}

// 16 × tree writes ≤ updates × (height + 1), and a high tree has taken many updates.
pub fn wear_law_holds()
    ensures { WearLaw }
{}

// One update writes at most 2 × height blocks and takes at most height + 1 new ones.
pub fn cost_law_holds()
    ensures { CostLaw }
{}

// Puts to the keys 1 to 513, rising: 18 tree writes, height 1, next free number 3.
pub fn known_run_holds()
    ensures { (K : Algebra) (v : ℕ) → KnownRun K v }
{}
