// Runs stores on devices whose blocks are lost, damaged or tampered with, whose counts wrap, and whose allowance falls only sometimes, and
// prints what each call answers.
#![tactic(auto)]

mod bad;
mod card;
mod tampered;
mod told;
mod worn;

use crate::bad::try_bad_blocks;
use crate::card::Card;
use crate::tampered::try_tampered;
use crate::worn::{try_full_card, try_wear, try_wrapping};
use std::io;

fn main(rt: HostRuntime) -> io::Result<()> {
    let mut card = Card::new(rt.alloc(), 32)?;
    try_bad_blocks(&rt, &mut card)?;
    try_tampered(&rt, &mut card)?;
    try_wear(&rt, &mut card)?;
    try_wrapping(&rt, &mut card)?;
    try_full_card(&rt)
}
