// What every device of blocks promises.
ghost use Rattle.std.specs.Prelude.{◌≡◌, ℕ, length};
ghost use Rattle.blocks.specs.Media.{Medium, Sane, refusal_of, read_refusal, write_refusal, after_read, after_write, read_into, Lowered};

use crate::state::State;

// A row of blocks of a fixed size, with an allowance of writes. What it holds is its meaning, a `Medium`;
// every promise is an equality of meanings, for every input.
pub trait Device {
    // What a refused read or write brings back.
    type Fault: Copy;

    // The number of the refusal that a fault stands for.
    ghost number: { Self.Fault → ℕ };

    ghost meaning: { Self → Medium };

    // What holds of every device: at most 65,536 blocks, each of 4,096 bytes, and lost past the size.
    ghost sane: { (d : Self) → Sane (meaning d) };

    // A number, since devices are open, and each may have refusals of its own.
    fn number(fault: Self::Fault) -> u8
        ensures { result ≡ number fault };

    fn size(&mut self) -> u32
        ensures value { result ≡ (meaning self.old).size }
        ensures same { meaning self.new ≡ meaning self.old };

    fn state(&mut self, block: u32) -> State
        ensures value { result ≡ (meaning self.old).state block }
        ensures same { meaning self.new ≡ meaning self.old };

    fn allowance(&mut self) -> u64
        ensures value { result ≡ (meaning self.old).allowance }
        ensures same { meaning self.new ≡ meaning self.old };

    fn reads(&mut self) -> u64
        ensures value { result ≡ (meaning self.old).reads }
        ensures same { meaning self.new ≡ meaning self.old };

    fn writes(&mut self) -> u64
        ensures value { result ≡ (meaning self.old).writes }
        ensures same { meaning self.new ≡ meaning self.old };

    // Copies a sound block into the buffer.
    fn read(&mut self, block: u32, buffer: &mut [u8]) -> Result<(), Self::Fault>
        ensures answer { refusal_of number result ≡ read_refusal (meaning self.old) block (length buffer.old) }
        ensures after { meaning self.new ≡ after_read result (meaning self.old) }
        ensures buffer { buffer.new ≡ read_into result (meaning self.old) block buffer.old };

    // Gives a block new bytes and makes it sound. The allowance falls by 1 or not at all, as the device chooses.
    fn write(&mut self, block: u32, bytes: &[u8]) -> Result<(), Self::Fault>
        ensures answer { refusal_of number result ≡ write_refusal (meaning self.old) block (length bytes.now) }
        ensures after { meaning self.new ≡ after_write result (meaning self.old) block bytes.now (meaning self.new).allowance }
        ensures lowered { Lowered (meaning self.old).allowance (meaning self.new).allowance };
}
