// Runs updates on stores in memory, and prints the figures, the device's counts and what pages over all keys gave. The expected output
// comes from an independent model of the rules.
#![tactic(auto)]

mod pages;

use crate::pages::read_all;
use blocks::memory::MemoryDevice;
use messages::entry::Entry;
use std::io;
use steps::gathering::MOST_IN_PAGE;
use store::workspace::Workspace;
use trial_runs::cards::{CARD_BYTES, PLENTY};
use trial_runs::cost::{Cost, close};
use trial_runs::fresh::new_store;
use trial_runs::run::{MODEL_RUNS, make_updates};

fn main(rt: HostRuntime) -> io::Result<()> {
    let mut bytes = vec![in rt.alloc(); 0u8; CARD_BYTES]?;
    let none = Entry { key: 0, value: 0 };
    let mut table = vec![in rt.alloc(); none; MOST_IN_PAGE]?;
    for run in &MODEL_RUNS {
        let workspace = Workspace::new(rt.alloc())?;
        let mut store = new_store(MemoryDevice::new(&mut bytes, PLENTY), workspace);
        make_updates(&mut store, *run);
        let tally = read_all(&mut store, &mut table);
        let closed = close(store);
        // The reads of pages are printed on their own.
        let cost = Cost {
            reads: closed.reads.wrapping_sub(tally.reads),
            ..closed
        };
        println!(rt; "{}: {cost}", run.order)?;
        println!(rt; "  {tally}")?;
    }
    Ok(())
}
