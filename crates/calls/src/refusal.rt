// Why a book refused a call.
ghost use Rattle.std.specs.Prelude.{◌≡◌};
ghost use Rattle.calls.specs.Refusals.{number_told, layer_told, part_told};

use crate::part::Part;
use plan::cause::Report;
use plan::layer::Layer;

#[derive(Clone, Copy, PartialEq, Eq, Debug)]
pub enum Refusal {
    // An amount beyond its bounds, or a day.
    BadValue,
    // A store refused, or met a fault.
    Met { part: Part, report: Report },
    // A store was stopped before, by this first refusal.
    Stopped { part: Part, first: Report },
}

impl Refusal {
    pub fn number(&self) -> u8
        ensures { result ≡ number_told self.now }
    {
        match *self {
            Refusal::BadValue => 3,
            Refusal::Met { report, .. } => report.number(),
            Refusal::Stopped { .. } => 2,
        }
    }

    pub fn layer(&self) -> Layer
        ensures { result ≡ layer_told self.now }
    {
        match *self {
            Refusal::BadValue => Layer::Book,
            Refusal::Met { report, .. } => report.layer(),
            Refusal::Stopped { .. } => Layer::Store,
        }
    }

    // The store that it is about, if it is about one.
    pub fn part(&self) -> Option<Part>
        ensures { result ≡ part_told self.now }
    {
        match *self {
            Refusal::BadValue => None,
            Refusal::Met { part, .. } | Refusal::Stopped { part, .. } => Some(part),
        }
    }
}
