// What a refusal of a store tells, in plain numbers.
ghost use Rattle.std.specs.Prelude.{◌≡◌, is_some};
ghost use Rattle.plan.specs.Reports.{told_by};
ghost use Rattle.store.specs.Views.{contents, stopped_before};
ghost use Rattle.steps.specs.Outcomes.{SameAllowance};
ghost use Rattle.messages.specs.Outcomes.{ok_unless};

use crate::fault::Fault;
use crate::store::Store;
use blocks::device::Device;
use plan::cause::{Cause, Report};

// What a cause tells to those who do not know the device.
pub fn report_of<D: Device>(cause: Cause<D::Fault>) -> Report
    ensures { result ≡ told_by D.Device.number cause }
{
    match cause {
        Cause::Device { fault, block } => Cause::Device {
            fault: D::number(fault),
            block,
        },
        Cause::BadNode { block, rule } => Cause::BadNode { block, rule },
        Cause::Store(refusal) => Cause::Store(refusal),
    }
}

impl<D: Device, K> Store<D, K> {
    // What stopped the store, if it is stopped.
    pub fn stopped_by(&self) -> Option<Report>
        ensures { result ≡ (contents D.Device self.now).first }
    {
        self.stopped.map(|cause| report_of::<D>(cause))
    }

    // Whether the store is open and not stopped.
    pub fn stands(&self) -> bool
        ensures { result ≡ is_some (contents D.Device self.now).root }
    {
        self.stopped.is_none()
    }

    // Refuses a call where the store was stopped before.
    pub(crate) fn check_open(&self) -> Result<(), Fault<D::Fault>>
        ensures { result ≡ ok_unless (stopped_before self.now.stopped) tt }
    {
        match self.stopped {
            Some(first) => Err(Fault::Stopped(first)),
            None => Ok(()),
        }
    }

    // The reads and the writes that the device has counted.
    pub fn counts(&mut self) -> (u64, u64)
        ensures reads { result.0 ≡ (contents D.Device self.old).image.reads }
        ensures writes { result.1 ≡ (contents D.Device self.old).image.writes }
        ensures same { contents D.Device self.new ≡ contents D.Device self.old }
        ensures allowance { SameAllowance D.Device self.old.device self.new.device }
    {
        (self.device.reads(), self.device.writes())
    }
}
