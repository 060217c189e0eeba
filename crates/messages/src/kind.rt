// What the words of a store mean: how a delta acts on a value.
ghost use Rattle.std.specs.Prelude.{◌≡◌};
ghost use Rattle.messages.specs.Algebra.{Algebra};

// A kind of value. Its algebra carries the law: acting with two deltas in turn is acting with both joined.
pub trait Kind {
    ghost algebra: { Algebra };

    // The number by which blocks name the kind. No enum, since kinds are open.
    fn number() -> u8
        ensures { result ≡ algebra.number };

    // The value that a delta acts on where the key is absent.
    fn start() -> u64
        ensures { result ≡ algebra.start };

    // What a delta makes of a value.
    fn act(value: u64, delta: u64) -> u64
        ensures { result ≡ algebra.act value delta };

    // The one delta that acts as an earlier and then a later one.
    fn join(earlier: u64, later: u64) -> u64
        ensures { result ≡ algebra.join earlier later };
}
