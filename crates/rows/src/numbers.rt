// Unsigned numbers as rows, the highest byte first.
ghost use Rattle.std.specs.Prelude.{◌≡◌};
ghost use Rattle.rows.specs.Coding.{number};
ghost use Rattle.rows.specs.Tables.{NumbersRoundTrip};

use crate::row::Row;

// Four impls: each width has an array type of its own, so a trait over them would be implemented as often. Bytes are read by index: a
// `first_chunk` would keep a test of the length at run time, and a node's table is read by nothing else.
impl Row for u8 {
    ghost coding = { number 1 };

    fn size() -> usize {
        1
    }

    fn write(self, row: &mut [u8]) {
        row.copy_from_slice(&self.to_be_bytes());
    }

    fn read(bytes: &[u8]) -> u8 {
        u8::from_be_bytes([bytes[0]])
    }
}

impl Row for u16 {
    ghost coding = { number 2 };

    fn size() -> usize {
        2
    }

    fn write(self, row: &mut [u8]) {
        row.copy_from_slice(&self.to_be_bytes());
    }

    fn read(bytes: &[u8]) -> u16 {
        u16::from_be_bytes([bytes[0], bytes[1]])
    }
}

impl Row for u32 {
    ghost coding = { number 4 };

    fn size() -> usize {
        4
    }

    fn write(self, row: &mut [u8]) {
        row.copy_from_slice(&self.to_be_bytes());
    }

    fn read(bytes: &[u8]) -> u32 {
        u32::from_be_bytes([bytes[0], bytes[1], bytes[2], bytes[3]])
    }
}

impl Row for u64 {
    ghost coding = { number 8 };

    fn size() -> usize {
        8
    }

    fn write(self, row: &mut [u8]) {
        row.copy_from_slice(&self.to_be_bytes());
    }

    fn read(bytes: &[u8]) -> u64 {
        u64::from_be_bytes([
            bytes[0], bytes[1], bytes[2], bytes[3], bytes[4], bytes[5], bytes[6], bytes[7],
        ])
    }
}

// Numbers and their bytes come back from one another, at every width.
pub fn numbers_round_trip()
    ensures { NumbersRoundTrip }
{}
