// The cards that the trials run on: a store is made, filled and closed.
use blocks::faulty::{FaultyDevice, Wear};
use blocks::limits::BLOCK_BYTES;
use blocks::state::State;
use messages::quantity::Quantity;
use std::alloc::{AllocError, Global};
use store::store::Store;
use store::workspace::Workspace;
use trial_runs::cards::PLENTY;
use trial_runs::cost::close;
use trial_runs::fresh::new_store;
use trial_runs::order::Order;
use trial_runs::run::{Run, make_updates};

// A store of quantities on a device for trials.
pub type Trialed<'a> = Store<FaultyDevice<'a>, Quantity>;

// The bytes of a card, and the state of each of its blocks.
#[derive(Drop)]
pub struct Card {
    pub bytes: Vec<u8>,
    states: Vec<State>,
}

impl Card {
    pub fn new(heap: Global, blocks: usize) -> Result<Card, AllocError> {
        let bytes = vec![in heap; 0u8; BLOCK_BYTES.saturating_mul(blocks)]?;
        let states = vec![in heap; State::Sound; blocks]?;
        Ok(Card { bytes, states })
    }

    pub fn device(&mut self, wear: Wear, allowance: u64) -> FaultyDevice<'_> {
        FaultyDevice::new(&mut self.bytes, &mut self.states, wear, allowance)
    }

    // Makes all blocks sound, formats them, fills a store on them and closes it.
    pub fn prepare(&mut self, heap: Global, order: Order, updates: u32) -> Result<(), AllocError> {
        self.states.fill(State::Sound);
        let workspace = Workspace::new(heap)?;
        let mut store = new_store(self.device(Wear::EveryWrite, PLENTY), workspace);
        make_updates(&mut store, Run { order, updates });
        close(store);
        Ok(())
    }
}
