// Why a call of a store was refused, or why it stopped.
ghost use Rattle.std.specs.Prelude.{◌≡◌};
ghost use Rattle.plan.specs.Reports.{number_of, layer_of};
ghost use Rattle.plan.specs.declared.cause.Cause.TheVariants.{Store};

use crate::layer::Layer;
use crate::refusal::StoreRefusal;
use rules::rule::Rule;

// A fault of the device at a block, a node that breaks a rule, or a refusal of the store itself.
#[derive(Clone, Copy, PartialEq, Eq, Debug)]
pub enum Cause<F> {
    Device { fault: F, block: u32 },
    BadNode { block: u32, rule: Rule },
    Store(StoreRefusal),
}

// A cause as it is told to those who do not know the device: its fault by the number that it stands for.
pub type Report = Cause<u8>;

impl<F> From<StoreRefusal> for Cause<F> {
    ghost from_gives = { λ refusal cause. cause ≡ Store refusal };

    fn from(refusal: StoreRefusal) -> Cause<F> {
        Cause::Store(refusal)
    }
}

impl Cause<u8> {
    // The number by which all of this is known.
    pub fn number(&self) -> u8
        ensures { result ≡ number_of self.now }
    {
        match *self {
            Cause::Device { fault, .. } => fault,
            Cause::BadNode { .. } => 12,
            Cause::Store(refusal) => refusal.number(),
        }
    }

    pub fn layer(&self) -> Layer
        ensures { result ≡ layer_of self.now }
    {
        match *self {
            Cause::Device { .. } => Layer::Device,
            Cause::BadNode { .. } => Layer::Node,
            Cause::Store(_) => Layer::Store,
        }
    }
}
