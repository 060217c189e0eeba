// Why a call of a store was refused.
ghost use Rattle.plan.specs.declared.cause.Cause.TheVariants.{Store};
ghost use Rattle.std.specs.Prelude.{◌≡◌};
ghost use Rattle.store.specs.declared.fault.Fault.TheVariants.{Met};

use plan::cause::Cause;
use plan::refusal::StoreRefusal;

#[derive(Clone, Copy)]
pub enum Fault<F> {
    // This call met a cause.
    Met(Cause<F>),
    // The store was stopped before, by this first cause.
    Stopped(Cause<F>),
}

impl<F> From<Cause<F>> for Fault<F> {
    ghost from_gives = { λ cause fault. fault ≡ Met cause };

    fn from(cause: Cause<F>) -> Fault<F> {
        Fault::Met(cause)
    }
}

impl<F> From<StoreRefusal> for Fault<F> {
    ghost from_gives = { λ refusal fault. fault ≡ Met (Store refusal) };

    fn from(refusal: StoreRefusal) -> Fault<F> {
        Fault::Met(Cause::Store(refusal))
    }
}
