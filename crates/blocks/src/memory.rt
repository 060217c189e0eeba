// A device in memory: the first device, and the one that trials run on.
ghost use Rattle.std.specs.Prelude.{◌≡◌, ℕ, ◌+◌, ◌*◌, ◌<◌, ◌≤◌, length, take, drop, OnOk};
ghost use borrow.Rule.Slice.PartMut.{put_mid};
ghost use Rattle.blocks.specs.Media.{block_bytes, refusal_of, write_refusal, after_write, Lowered};
ghost use Rattle.blocks.specs.Memory.{memory, held, held_sane, whole_blocks, left_over};
ghost use Rattle.blocks.specs.Refusals.{refusal_number};

use crate::device::Device;
use crate::limits::{BLOCK_BYTES, MAX_BLOCKS};
use crate::refusal::{Refusal, admit};
use crate::state::State;

// Blocks that lie one after another in bytes handed in. Each accepted write costs one of the allowance.
#[derive(Drop)]
pub struct MemoryDevice<'a> {
    bytes: &'a mut [u8],
    allowance: u64,
    reads: u64,
    writes: u64,
}

fn copy(to: &mut [u8], from: &[u8])
    requires { length to.old ≡ length from.now }
    ensures { to.new ≡ from.now }
{
    to.copy_from_slice(from);
}

// Lends the block that begins at `at` to the copy, to write it.
pub(crate) fn put_block(bytes: &mut [u8], at: usize, block: &[u8])
    requires fits { at + block_bytes ≤ length bytes.old }
    requires whole { length block.now ≡ block_bytes }
    ensures { bytes.new ≡ put_mid at block_bytes bytes.old block.now }
{
    copy(&mut bytes[at..at + BLOCK_BYTES], block);
}

// Lends the block that begins at `at` to the copy, to read it.
pub(crate) fn get_block(bytes: &mut [u8], at: usize, buffer: &mut [u8])
    requires fits { at + block_bytes ≤ length bytes.old }
    requires whole { length buffer.old ≡ block_bytes }
    ensures copied { buffer.new ≡ take block_bytes (drop at bytes.old) }
    ensures same { bytes.new ≡ bytes.old }
{
    copy(buffer, &bytes[at..at + BLOCK_BYTES]);
}

// The blocks in so many bytes: a rest that fills no block does not count.
pub(crate) fn blocks_in(len: usize) -> u32
    ensures { result ≡ whole_blocks len }
{
    (len / BLOCK_BYTES).min(MAX_BLOCKS) as u32
}

impl<'a> MemoryDevice<'a> {
    pub fn new(bytes: &'a mut [u8], allowance: u64) -> MemoryDevice<'a>
        ensures { held result ≡ memory bytes.old allowance 0 0 }
    {
        MemoryDevice {
            bytes,
            allowance,
            reads: 0,
            writes: 0,
        }
    }

    fn blocks(&self) -> u32
        ensures { result ≡ (held self.now).size }
    {
        blocks_in(self.bytes.len())
    }
}

impl<'a> Device for MemoryDevice<'a> {
    type Fault = Refusal;

    ghost number = { refusal_number };

    ghost meaning = { held };

    ghost sane = { held_sane };

    fn number(fault: Refusal) -> u8
        ensures { result ≡ refusal_number fault }
    {
        fault.number()
    }

    fn size(&mut self) -> u32 {
        self.blocks()
    }

    fn state(&mut self, block: u32) -> State {
        if block < self.blocks() {
            State::Sound
        } else {
            State::Lost
        }
    }

    fn allowance(&mut self) -> u64 {
        self.allowance
    }

    fn reads(&mut self) -> u64 {
        self.reads
    }

    fn writes(&mut self) -> u64 {
        self.writes
    }

    fn read(&mut self, block: u32, buffer: &mut [u8]) -> Result<(), Refusal> {
        admit(buffer.len(), block, self.blocks())?;
        get_block(self.bytes, BLOCK_BYTES * block as usize, buffer);
        self.reads = self.reads.wrapping_add(1);
        Ok(())
    }

    // Besides what every device promises: the allowance falls by exactly 1, and the bytes past the last block stay.
    fn write(&mut self, block: u32, bytes: &[u8]) -> Result<(), Refusal>
        ensures answer { refusal_of refusal_number result ≡ write_refusal (held self.old) block (length bytes.now) }
        ensures after { held self.new ≡ after_write result (held self.old) block bytes.now self.new.allowance }
        ensures lowered { Lowered self.old.allowance self.new.allowance }
        ensures exact { OnOk result (self.new.allowance + 1 ≡ self.old.allowance) }
        ensures untouched { left_over self.new.bytes.now ≡ left_over self.old.bytes.now }
    {
        admit(bytes.len(), block, self.blocks())?;
        if self.allowance == 0 {
            return Err(Refusal::Spent);
        }
        put_block(self.bytes, BLOCK_BYTES * block as usize, bytes);
        self.allowance -= 1;
        self.writes = self.writes.wrapping_add(1);
        Ok(())
    }
}
