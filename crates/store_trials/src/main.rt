// Runs updates on stores in memory, and prints the figures, the device's counts and a digest of each block after closing. The expected
// output comes from an independent model of the rules.
#![tactic(auto)]

mod digest;

use crate::digest::digest;
use blocks::limits::BLOCK_BYTES;
use blocks::memory::MemoryDevice;
use std::io;
use store::workspace::Workspace;
use trial_runs::cards::{CARD_BYTES, PLENTY};
use trial_runs::cost::close;
use trial_runs::fresh::new_store;
use trial_runs::run::{MODEL_RUNS, make_updates};

// The blocks that the tree has taken after each run.
const BLOCKS_TAKEN: [usize; 4] = [3, 12, 16, 22];

fn print_digests(rt: &impl Print, bytes: &[u8], blocks: usize) -> io::Result<()> {
    for (block, part) in bytes.chunks(BLOCK_BYTES).take(blocks).enumerate() {
        println!(rt; "  block {block} {:016x}", digest(part))?;
    }
    Ok(())
}

fn main(rt: HostRuntime) -> io::Result<()> {
    let mut bytes = vec![in rt.alloc(); 0u8; CARD_BYTES]?;
    for (run, blocks) in MODEL_RUNS.iter().zip(&BLOCKS_TAKEN) {
        let workspace = Workspace::new(rt.alloc())?;
        let mut store = new_store(MemoryDevice::new(&mut bytes, PLENTY), workspace);
        make_updates(&mut store, *run);
        let cost = close(store);
        println!(rt; "{}: {cost}", run.order)?;
        print_digests(&rt, &bytes, *blocks)?;
    }
    Ok(())
}
