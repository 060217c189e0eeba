// Worked examples of what messages do, as theorems.
ghost use Rattle.messages.specs.Examples.{WorkedExamples};

// Nothing is computed: the contract is the theorem.
pub fn worked_examples_hold()
    ensures { WorkedExamples }
{}
