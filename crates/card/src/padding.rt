// The input cut into blocks.
ghost use Rattle.std.specs.Prelude.{◌≡◌, ◌+◌, ◌/◌, ◌<◌, ◌≤◌, length};
ghost use Rattle.blocks.specs.Media.{block_bytes};
ghost use Rattle.blocks.specs.Memory.{block_of};
ghost use Rattle.card.specs.Keeping.{padded, parts};

use blocks::limits::BLOCK_BYTES;

// The blocks that so many bytes take, the last one filled or not.
pub fn parts_of(len: usize) -> usize
    ensures { result ≡ parts len }
{
    len.div_ceil(BLOCK_BYTES)
}

// Fills a block with bytes, and what is left of it with zeros.
fn pad(bytes: &[u8], block: &mut [u8])
    requires fits { length bytes.now ≤ block_bytes }
    requires whole { length block.old ≡ block_bytes }
    ensures { block.new ≡ padded bytes.now }
{
    let filled = bytes.len();
    block[0..filled].copy_from_slice(bytes);
    block[filled..].fill(0);
}

// Fills a block with the part of the input that belongs there.
pub fn fill_block(input: &[u8], part: usize, block: &mut [u8])
    requires within { part < parts (length input.now) }
    requires whole { length block.old ≡ block_bytes }
    ensures { block.new ≡ padded (block_of input.now part) }
{
    let from = BLOCK_BYTES * part;
    let to = input.len().min(from + BLOCK_BYTES);
    pad(&input[from..to], block);
}
