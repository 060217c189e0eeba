// What a level says of a key in a query. Std's `ControlFlow` would only rename the two: `?` does not take it out of a call that gives a result.
#[derive(Clone, Copy)]
pub enum Verdict {
    // The key is settled: this is what it holds.
    Settled(Option<u64>),
    // The query goes on down, with the deltas met so far joined.
    Down(Option<u64>),
}
