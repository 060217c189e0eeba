// Puts standard input on a card in memory, block by block, reads each block back and prints what came of it.
#![tactic(auto)]

mod input;
mod keeping;
mod outcome;
mod padding;

use crate::input::{INPUT_BYTES, read_some};
use crate::keeping::keep_input;
use crate::outcome::{Line, Outcome};
use blocks::device::Device;
use blocks::limits::BLOCK_BYTES;
use blocks::memory::MemoryDevice;
use std::io;

// The blocks of the card and the writes that it allows.
const CARD_BLOCKS: usize = 16;

const CARD_WRITES: u64 = 12;

fn print_outcomes(rt: &impl Print, outcomes: &[Outcome]) -> io::Result<()> {
    for (block, outcome) in outcomes.iter().enumerate() {
        let line = Line {
            block,
            outcome: *outcome,
        };
        println!(rt; "{line}")?;
    }
    Ok(())
}

fn print_counts(rt: &impl Print, card: &mut MemoryDevice) -> io::Result<()> {
    let reads = card.reads();
    let writes = card.writes();
    let allowance = card.allowance();
    println!(rt; "reads {reads}, writes {writes}, allowance left {allowance}")
}

fn main(rt: HostRuntime) -> io::Result<()> {
    let mut buffer = vec![in rt.alloc(); 0u8; INPUT_BYTES]?;
    let filled = read_some(&mut rt.stdin(), &mut buffer)?;
    let mut bytes = vec![in rt.alloc(); 0u8; CARD_BLOCKS * BLOCK_BYTES]?;
    let mut card = MemoryDevice::new(&mut bytes, CARD_WRITES);
    let outcomes = keep_input(rt.alloc(), &mut card, &buffer[0..filled])?;
    print_outcomes(&rt, &outcomes)?;
    print_counts(&rt, &mut card)
}
