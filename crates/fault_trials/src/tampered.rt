// Cards whose blocks were tampered with below the root: the first rule that is broken is told.
use crate::card::{Card, Trialed};
use crate::told::Told;
use blocks::faulty::Wear;
use blocks::limits::BLOCK_BYTES;
use std::io;
use store::workspace::Workspace;
use trial_runs::cards::PLENTY;
use trial_runs::cost::close;
use trial_runs::order::Order;

// A level, the place in each of its nodes that is changed, and the byte that it is changed to.
#[derive(Clone, Copy)]
struct Change(u8, usize, u8);

// One for each rule, in their order.
const CHANGES: [Change; 10] = [
    Change(0, 0, 2),
    Change(0, 1, 1),
    Change(0, 2, 2),
    Change(0, 4, 1),
    Change(0, 5, 9),
    Change(0, 8, 1),
    Change(1, 32, 255),
    Change(1, 60, 255),
    Change(0, 32, 255),
    Change(0, 6, 1),
];

// The updates of a card that is tampered with, and the blocks that its tree has then taken.
const UPDATES: u32 = 2000;

const BLOCKS_TAKEN: usize = 12;

// Changes each node of the level below the root.
fn tamper(bytes: &mut [u8], change: Change) {
    let Change(level, place, byte) = change;
    for node in bytes.chunks_mut(BLOCK_BYTES).take(BLOCKS_TAKEN).skip(1) {
        if place < node.len() && node[0] == level {
            node[place] = byte;
        }
    }
}

pub fn try_tampered(rt: &(impl Print + AllocGlobal), card: &mut Card) -> io::Result<()> {
    for change in &CHANGES {
        card.prepare(rt.alloc(), Order::Falling, UPDATES)?;
        tamper(&mut card.bytes, *change);
        let Change(level, place, byte) = *change;
        println!(rt; "byte {place} of each node of level {level} is {byte}")?;
        let workspace = Workspace::new(rt.alloc())?;
        let mut store = Trialed::open(card.device(Wear::EveryWrite, PLENTY), workspace);
        let asked = Told::Query(store.query(0));
        close(store);
        println!(rt; "  {asked}")?;
    }
    Ok(())
}
