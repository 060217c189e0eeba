// Why a device refuses a read or a write.
ghost use Rattle.std.specs.Prelude.{◌≡◌};
ghost use Rattle.blocks.specs.Refusals.{refusal_number, admitted};

use crate::limits::BLOCK_BYTES;

#[derive(Clone, Copy, PartialEq, Eq, Debug)]
pub enum Refusal {
    BadBuffer = 1,
    NoSuchBlock = 8,
    Spent = 9,
    Lost = 10,
    Damaged = 11,
}

impl Refusal {
    // The number that a refusal is known by.
    pub fn number(self) -> u8
        ensures { result ≡ refusal_number self }
    {
        self as u8
    }
}

// Refuses an access that no state or allowance could admit: first for its bytes, then for its block.
pub(crate) fn admit(len: usize, block: u32, size: u32) -> Result<(), Refusal>
    ensures { result ≡ admitted len block size }
{
    if len != BLOCK_BYTES {
        return Err(Refusal::BadBuffer);
    }
    if block >= size {
        return Err(Refusal::NoSuchBlock);
    }
    Ok(())
}
