// What is seen of a book between calls.
ghost use Rattle.std.specs.Prelude.{◌≡◌};
ghost use Rattle.book.specs.Views.{known, allowance_of, media_of, state_of, CountsFit};
ghost use Rattle.book_plan.specs.Readings.{stands, reading_of, at_rest};

use crate::book::{ClosedBook, OpenBook};
use blocks::device::Device;
use calls::point::Reading;
use messages::kind::Kind;
use plan::cause::Report;
use store::store::Store;
use store_plan::figures::Figures;

// What is seen of an open store.
fn read_store<D: Device, K: Kind>(store: &mut Store<D, K>) -> Reading
    ensures value { result ≡ reading_of (known store.old) }
    ensures fits { CountsFit result }
    ensures same { known store.new ≡ known store.old }
    ensures allowance { allowance_of store.new ≡ allowance_of store.old }
{
    let (reads, writes) = store.counts();
    Reading {
        stands: store.stands(),
        figures: store.figures(),
        reads,
        writes,
    }
}

// What is seen of the device of a closed store.
fn read_device<D: Device>(device: &mut D) -> Reading
    ensures value { result ≡ at_rest (D.Device.meaning device.old) }
    ensures fits { CountsFit result }
    ensures same { D.Device.meaning device.new ≡ D.Device.meaning device.old }
{
    Reading {
        stands: false,
        figures: Figures::default(),
        reads: device.reads(),
        writes: device.writes(),
    }
}

impl<S: Device, D: Device> ClosedBook<S, D> {
    // What is seen of the stock store and of the day store.
    pub fn readings(&mut self) -> (Reading, Reading)
        ensures stock { result.0 ≡ at_rest (media_of S.Device D.Device self.old).stock }
        ensures day { result.1 ≡ at_rest (media_of S.Device D.Device self.old).day }
        ensures fits { CountsFit result.0 × CountsFit result.1 }
        ensures same { media_of S.Device D.Device self.new ≡ media_of S.Device D.Device self.old }
    {
        let stock = read_device(&mut self.stock);
        let day = read_device(&mut self.day);
        (stock, day)
    }
}

impl<S: Device, D: Device> OpenBook<S, D> {
    // What stopped each store, if it is stopped.
    pub fn stops(&self) -> (Option<Report>, Option<Report>)
        ensures stock { result.0 ≡ (state_of self.now).stock.first }
        ensures day { result.1 ≡ (state_of self.now).day.first }
    {
        (self.stock.stopped_by(), self.day.stopped_by())
    }

    // Whether each store stands.
    pub fn standing(&self) -> (bool, bool)
        ensures stock { result.0 ≡ stands (state_of self.now).stock.root }
        ensures day { result.1 ≡ stands (state_of self.now).day.root }
    {
        (self.stock.stands(), self.day.stands())
    }

    // What is seen of the stock store and of the day store.
    pub fn readings(&mut self) -> (Reading, Reading)
        ensures stock { result.0 ≡ reading_of (state_of self.old).stock }
        ensures day { result.1 ≡ reading_of (state_of self.old).day }
        ensures fits { CountsFit result.0 × CountsFit result.1 }
        ensures same { state_of self.new ≡ state_of self.old }
    {
        let stock = read_store(&mut self.stock);
        let day = read_store(&mut self.day);
        (stock, day)
    }
}
