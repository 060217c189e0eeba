// What is seen of a book along a list of calls.
use crate::answer::Answer;
use crate::call::Call;
use store_plan::figures::Figures;

// What is seen of one store.
#[derive(Clone, Copy, PartialEq, Eq, Debug)]
pub struct Reading {
    // Whether the store is open and not stopped. A stopped store keeps its figures, so they are no `Option`.
    pub stands: bool,
    // Zeros if the store is not open.
    pub figures: Figures,
    // The device's own counts.
    pub reads: u64,
    pub writes: u64,
}

// A call, its answer, and what is then seen of each store.
#[derive(Clone, Copy, PartialEq, Eq, Debug)]
pub struct Point {
    pub call: Call,
    pub answer: Answer,
    pub stock: Reading,
    pub day: Reading,
}
