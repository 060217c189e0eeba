// A book that is closed, and one that is open: two types, so that no update can reach a closed book. Neither can be let go: opening and
// closing move one into the other, and `into_parts` hands a closed book's devices back.
use crate::rooms::Rooms;
use blocks::device::Device;
use messages::latest_day::LatestDay;
use messages::quantity::Quantity;
use store::store::Store;

pub struct ClosedBook<S: Device, D: Device> {
    pub(crate) stock: S,
    pub(crate) day: D,
    pub(crate) rooms: Rooms,
}

pub struct OpenBook<S: Device, D: Device> {
    pub(crate) stock: Store<S, Quantity>,
    pub(crate) day: Store<D, LatestDay>,
}
