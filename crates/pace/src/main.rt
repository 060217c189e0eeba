// Runs many updates on a store in memory and prints what it cost, so that anyone can time it.
#![tactic(auto)]

use blocks::memory::MemoryDevice;
use std::io;
use store::workspace::Workspace;
use trial_runs::cards::PLENTY;
use trial_runs::cost::close;
use trial_runs::fresh::new_store;
use trial_runs::order::Order;
use trial_runs::run::{Run, make_updates};

const CARD_BYTES: usize = 33554432;

const RUNS: [Run; 2] = [
    Run {
        order: Order::Scattered,
        updates: 200000,
    },
    Run {
        order: Order::Rising { from: 0 },
        updates: 200000,
    },
];

fn main(rt: HostRuntime) -> io::Result<()> {
    let mut bytes = vec![in rt.alloc(); 0u8; CARD_BYTES]?;
    for run in &RUNS {
        let workspace = Workspace::new(rt.alloc())?;
        let mut store = new_store(MemoryDevice::new(&mut bytes, PLENTY), workspace);
        let accepted = make_updates(&mut store, *run);
        let cost = close(store);
        println!(rt; "{}: accepted {accepted}, {cost}", run.order)?;
    }
    Ok(())
}
