// The work: the input put on a card and compared.
ghost use Rattle.std.specs.Prelude.{◌≡◌, ◌+◌, ◌%◌, ◌^◌, ◌<◌, ◌≤◌, length, MatchResult};
ghost use Rattle.blocks.specs.Media.{block_bytes};
ghost use Rattle.blocks.specs.Memory.{held};
ghost use Rattle.card.specs.Keeping.{outcome_of, after_keep, parts, Keeps, input_bytes};

use crate::outcome::{KeepError, Outcome};
use crate::padding::{fill_block, parts_of};
use blocks::device::Device;
use blocks::limits::BLOCK_BYTES;
use blocks::memory::MemoryDevice;
use std::alloc::{AllocError, Global};

// Writes a block, reads it back and compares.
fn keep_block(card: &mut MemoryDevice, block: u32, bytes: &[u8], back: &mut [u8]) -> Outcome
    requires whole { length bytes.now ≡ block_bytes }
    requires room { length back.old ≡ block_bytes }
    ensures outcome { result ≡ outcome_of (held card.old).size (held card.old).allowance block }
    ensures after { held card.new ≡ after_keep result (held card.old) block bytes.now }
{
    card.write(block, bytes)?;
    card.read(block, back)?;
    if *back == *bytes {
        Ok(())
    } else {
        Err(KeepError::Changed)
    }
}

// Puts each block of the input on the card in turn; a refused one does not end it.
pub fn keep_input(
    heap: Global,
    card: &mut MemoryDevice,
    input: &[u8],
) -> Result<Vec<Outcome>, AllocError>
    requires { length input.now ≤ input_bytes }
    ensures { MatchResult result (λ v. Keeps (held card.old) input.now (parts (length input.now)) (held card.new) v.items) (λ _. held card.new ≡ held card.old) }
{
    let parts = parts_of(input.len());
    let mut outcomes = Vec::with_capacity(heap, parts)?;
    let mut block = [0u8; BLOCK_BYTES];
    let mut back = [0u8; BLOCK_BYTES];
    // By number, which is the block on the card too.
    for part in 0..parts {
        fill_block(input, part, &mut block);
        outcomes.push_reserved(keep_block(card, part as u32, &block, &mut back));
    }
    Ok(outcomes)
}
