// A device for trials: blocks can be lost or damaged, and the allowance falls as told.
ghost use Rattle.std.specs.Prelude.{◌≡◌, ◌<◌, length, OnOk};
ghost use Rattle.blocks.specs.Media.{refusal_of, write_refusal, after_write, Lowered};
ghost use Rattle.blocks.specs.Faulty.{faulty, shown, shown_sane, with_counts, with_state, worn_allowance};
ghost use Rattle.blocks.specs.Refusals.{refusal_number};

use crate::device::Device;
use crate::limits::BLOCK_BYTES;
use crate::memory::{blocks_in, get_block, put_block};
use crate::refusal::{Refusal, admit};
use crate::state::State;

// Which accepted writes lower the allowance.
#[derive(Clone, Copy)]
pub enum Wear {
    EveryWrite,
    EverySecondWrite,
    NoWrite,
}

// Blocks in bytes handed in, each with a state handed in beside them. It has as many blocks as have both. The bytes are one slice, as a card's
// are, so a block and its state are no struct.
#[derive(Drop)]
pub struct FaultyDevice<'a> {
    bytes: &'a mut [u8],
    states: &'a mut [State],
    wear: Wear,
    allowance: u64,
    reads: u64,
    writes: u64,
}

impl<'a> FaultyDevice<'a> {
    pub fn new(
        bytes: &'a mut [u8],
        states: &'a mut [State],
        wear: Wear,
        allowance: u64,
    ) -> FaultyDevice<'a>
        ensures { shown result ≡ faulty bytes.old states.old allowance 0 0 }
    {
        FaultyDevice {
            bytes,
            states,
            wear,
            allowance,
            reads: 0,
            writes: 0,
        }
    }

    // Goes on from other counts, as if so many reads and writes had been made.
    pub fn count_from(&mut self, reads: u64, writes: u64)
        ensures { shown self.new ≡ with_counts (shown self.old) reads writes }
    {
        self.reads = reads;
        self.writes = writes;
    }

    // Gives a block another state; past the size nothing changes.
    pub fn set_state(&mut self, block: u32, state: State)
        ensures { shown self.new ≡ with_state (shown self.old) block state }
    {
        if block < self.blocks() {
            self.states[block as usize] = state;
        }
    }

    fn blocks(&self) -> u32
        ensures { result ≡ (shown self.now).size }
    {
        (blocks_in(self.bytes.len()) as usize).min(self.states.len()) as u32
    }
}

// What is left of an allowance after write number `writes` (counted from 0) under this wear.
fn worn(wear: Wear, allowance: u64, writes: u64) -> u64
    requires { 0 < allowance }
    ensures value { result ≡ worn_allowance wear allowance writes }
    ensures lowered { Lowered allowance result }
{
    match wear {
        Wear::EveryWrite => allowance - 1,
        Wear::EverySecondWrite if writes % 2 == 0 => allowance - 1,
        Wear::EverySecondWrite | Wear::NoWrite => allowance,
    }
}

impl<'a> Device for FaultyDevice<'a> {
    type Fault = Refusal;

    ghost number = { refusal_number };

    ghost meaning = { shown };

    ghost sane = { shown_sane };

    fn number(fault: Refusal) -> u8
        ensures { result ≡ refusal_number fault }
    {
        fault.number()
    }

    fn size(&mut self) -> u32 {
        self.blocks()
    }

    fn state(&mut self, block: u32) -> State {
        if block < self.blocks() {
            self.states[block as usize]
        } else {
            State::Lost
        }
    }

    fn allowance(&mut self) -> u64 {
        self.allowance
    }

    fn reads(&mut self) -> u64 {
        self.reads
    }

    fn writes(&mut self) -> u64 {
        self.writes
    }

    fn read(&mut self, block: u32, buffer: &mut [u8]) -> Result<(), Refusal> {
        admit(buffer.len(), block, self.blocks())?;
        match self.states[block as usize] {
            State::Sound => {}
            State::Damaged => return Err(Refusal::Damaged),
            State::Lost => return Err(Refusal::Lost),
        }
        get_block(self.bytes, BLOCK_BYTES * block as usize, buffer);
        self.reads = self.reads.wrapping_add(1);
        Ok(())
    }

    // Besides what every device promises: the allowance falls just as the wear says.
    fn write(&mut self, block: u32, bytes: &[u8]) -> Result<(), Refusal>
        ensures answer { refusal_of refusal_number result ≡ write_refusal (shown self.old) block (length bytes.now) }
        ensures after { shown self.new ≡ after_write result (shown self.old) block bytes.now self.new.allowance }
        ensures lowered { Lowered self.old.allowance self.new.allowance }
        ensures exact { OnOk result (self.new.allowance ≡ worn_allowance self.old.wear self.old.allowance self.old.writes) }
        ensures wear { self.new.wear ≡ self.old.wear }
    {
        admit(bytes.len(), block, self.blocks())?;
        if self.allowance == 0 {
            return Err(Refusal::Spent);
        }
        if self.states[block as usize] == State::Lost {
            return Err(Refusal::Lost);
        }
        put_block(self.bytes, BLOCK_BYTES * block as usize, bytes);
        self.states[block as usize] = State::Sound;
        self.allowance = worn(self.wear, self.allowance, self.writes);
        self.writes = self.writes.wrapping_add(1);
        Ok(())
    }
}
