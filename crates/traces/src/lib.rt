// What is seen along every list of calls on a book, and the law that holds of it: each function here computes nothing, and its contract is a
// theorem.
#![tactic(auto)]

ghost use Rattle.traces.specs.Runs.{TraceLaw};

// Every trace of calls on a book that was formatted on sound devices keeps the law of wear, of answers and of reads.
pub fn traces_keep_the_law()
    ensures { TraceLaw }
{}
