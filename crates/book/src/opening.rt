// Formatting, opening and closing a book.
ghost use Rattle.std.specs.Prelude.{◌≡◌};
ghost use Rattle.blocks.specs.Media.{Lowered};
ghost use Rattle.book.specs.Views.{devices_of, media_of, state_of, after_format, formatted_on, FormatLowers, opened_on, closed_image};
ghost use Rattle.calls.specs.declared.refusal.Refusal.TheVariants.{Met};
ghost use Rattle.messages.specs.LatestDay.{latest_day_algebra};
ghost use Rattle.messages.specs.Quantity.{quantity_algebra};
ghost use Rattle.plan.specs.Images.{image};
ghost use Rattle.plan.specs.Reports.{store_report};

use crate::book::{ClosedBook, OpenBook};
use crate::rooms::Rooms;
use crate::stores::met;
use blocks::device::Device;
use calls::part::Part;
use calls::refusal::Refusal;
use messages::kind::Kind;
use messages::latest_day::LatestDay;
use messages::quantity::Quantity;
use plan::cause::Cause;
use plan::refusal::StoreRefusal;
use store::conditions::check_format;
use store::formatting::format;
use store::store::Store;

// A refusal of formatting, before anything is written.
fn unfit(part: Part, refusal: StoreRefusal) -> Refusal
    ensures { result ≡ Met part (store_report refusal) }
{
    Refusal::Met {
        part,
        report: Cause::Store(refusal),
    }
}

impl<S: Device, D: Device> ClosedBook<S, D> {
    // The book on two devices that were formatted before, or are to be.
    pub fn new(stock: S, day: D, rooms: Rooms) -> ClosedBook<S, D>
        ensures stock { (devices_of result).0 ≡ stock }
        ensures day { (devices_of result).1 ≡ day }
    {
        ClosedBook { stock, day, rooms }
    }

    // Hands back the devices, and the memory.
    pub fn into_parts(self) -> (S, D, Rooms)
        ensures stock { result.0 ≡ (devices_of self).0 }
        ensures day { result.1 ≡ (devices_of self).1 }
    {
        let ClosedBook { stock, day, rooms } = self;
        (stock, day, rooms)
    }

    // Lays an empty book on the devices. Both are checked before either is written; whatever they held is gone.
    pub fn format(&mut self) -> Result<(), Refusal>
        ensures value { after_format result (media_of S.Device D.Device self.new) ≡ formatted_on (media_of S.Device D.Device self.old) }
        ensures lowered { FormatLowers (media_of S.Device D.Device self.old) (media_of S.Device D.Device self.new) }
    {
        check_format(&mut self.stock).map_err(|refusal| unfit(Part::Stock, refusal))?;
        check_format(&mut self.day).map_err(|refusal| unfit(Part::Day, refusal))?;
        format::<S, Quantity>(&mut self.stock, &mut self.rooms.stock).map_err(|cause| met::<S>(
            Part::Stock,
            cause,
        ))?;
        format::<D, LatestDay>(&mut self.day, &mut self.rooms.day).map_err(|cause| met::<D>(
            Part::Day,
            cause,
        ))
    }

    // Opens both stores, also if the first is refused: such a store is stopped.
    pub fn open(self) -> OpenBook<S, D>
        ensures stock { (state_of result).stock ≡ opened_on quantity_algebra (media_of S.Device D.Device self).stock }
        ensures day { (state_of result).day ≡ opened_on latest_day_algebra (media_of S.Device D.Device self).day }
        ensures stock_lowered { Lowered (media_of S.Device D.Device self).stock.allowance (state_of result).stock_allowance }
        ensures day_lowered { Lowered (media_of S.Device D.Device self).day.allowance (state_of result).day_allowance }
    {
        let ClosedBook { stock, day, rooms } = self;
        OpenBook {
            stock: Store::open(stock, rooms.stock),
            day: Store::open(day, rooms.day),
        }
    }
}

impl<S: Device, D: Device> OpenBook<S, D> {
    // Closes both stores: each that is not stopped writes its root.
    pub fn close(self) -> ClosedBook<S, D>
        ensures stock { image (media_of S.Device D.Device result).stock ≡ closed_image (state_of self).stock (state_of self).stock_allowance }
        ensures day { image (media_of S.Device D.Device result).day ≡ closed_image (state_of self).day (state_of self).day_allowance }
        ensures stock_lowered { Lowered (state_of self).stock_allowance (media_of S.Device D.Device result).stock.allowance }
        ensures day_lowered { Lowered (state_of self).day_allowance (media_of S.Device D.Device result).day.allowance }
    {
        let OpenBook { stock, day } = self;
        let (stock, stock_room) = stock.close();
        let (day, day_room) = day.close();
        ClosedBook {
            stock,
            day,
            rooms: Rooms {
                stock: stock_room,
                day: day_room,
            },
        }
    }
}
