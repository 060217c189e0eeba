// Allowances that fall only sometimes, counts that wrap, and a card that is full.
use crate::card::{Card, Trialed};
use crate::told::Told;
use blocks::device::Device;
use blocks::faulty::Wear;
use messages::message::Message;
use std::io;
use store::workspace::Workspace;
use trial_runs::cards::PLENTY;
use trial_runs::cost::close;
use trial_runs::order::Order;
use trial_runs::run::{Run, make_updates};

// How many scattered updates an allowance of 40 lets in, by the device's wear.
pub fn try_wear(rt: &(impl Print + AllocGlobal), card: &mut Card) -> io::Result<()> {
    for wear in &[Wear::EveryWrite, Wear::EverySecondWrite, Wear::NoWrite] {
        card.prepare(rt.alloc(), Order::Scattered, 0)?;
        let workspace = Workspace::new(rt.alloc())?;
        let mut store = Trialed::open(card.device(*wear, 40), workspace);
        let run = Run {
            order: Order::Scattered,
            updates: 2000,
        };
        let accepted = make_updates(&mut store, run);
        let (mut device, _workspace) = store.close();
        let writes = device.writes();
        let left = device.allowance();
        println!(rt; "allowance 40: {accepted} updates, {writes} writes, {left} left")?;
    }
    Ok(())
}

// The device's counts and the tree writes start just below 2^64.
pub fn try_wrapping(rt: &(impl Print + AllocGlobal), card: &mut Card) -> io::Result<()> {
    card.prepare(rt.alloc(), Order::Rising { from: 1 }, 0)?;
    // The root has its tree writes in bytes 24 to 31 of block 0.
    for byte in card.bytes.iter_mut().take(32).skip(24) {
        *byte = 255;
    }
    let workspace = Workspace::new(rt.alloc())?;
    let mut device = card.device(Wear::EveryWrite, PLENTY);
    device.count_from(u64::MAX, u64::MAX - 1);
    let mut store = Trialed::open(device, workspace);
    let run = Run {
        order: Order::Rising { from: 1 },
        updates: 300,
    };
    make_updates(&mut store, run);
    let cost = close(store);
    println!(rt;
        "wrapped: {} tree writes, {} reads, {} writes",
        cost.figures.tree_writes, cost.reads, cost.writes
    )
}

// Rising keys on a card of 4 blocks.
pub fn try_full_card(rt: &(impl Print + AllocGlobal)) -> io::Result<()> {
    let mut card = Card::new(rt.alloc(), 4)?;
    card.prepare(rt.alloc(), Order::Rising { from: 1 }, 0)?;
    let workspace = Workspace::new(rt.alloc())?;
    let mut store = Trialed::open(card.device(Wear::EveryWrite, PLENTY), workspace);
    let run = Run {
        order: Order::Rising { from: 1 },
        updates: 1000,
    };
    let accepted = make_updates(&mut store, run);
    let next = Told::Update(store.update(514, Message::Add(1)));
    close(store);
    println!(rt; "a card of 4 blocks lets {accepted} rising keys in")?;
    println!(rt; "  {next}")
}
