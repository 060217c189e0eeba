// The first 32 bytes of a block.
ghost use Rattle.std.specs.Prelude.{◌≡◌};
ghost use Rattle.rules.specs.Headers.{header_coding};

use rows::row::Row;

#[derive(Clone, Copy, PartialEq, Eq, Debug)]
pub struct Header {
    pub level: u8,
    // The mark and the kind are bytes here, since a block may have any; the rules judge them.
    pub mark: u8,
    // How many messages or records there are.
    pub count: u16,
    // How many children there are.
    pub children: u8,
    pub kind: u8,
    // Bytes 6 and 7.
    pub unused: u16,
    pub next_free: u32,
    // Bytes 12 to 15.
    pub gap: u32,
    pub updates: u64,
    pub tree_writes: u64,
}

impl Row for Header {
    ghost coding = { header_coding };

    fn size() -> usize {
        32
    }

    fn write(self, row: &mut [u8]) {
        self.level.write(&mut row[0..1]);
        self.mark.write(&mut row[1..2]);
        self.count.write(&mut row[2..4]);
        self.children.write(&mut row[4..5]);
        self.kind.write(&mut row[5..6]);
        self.unused.write(&mut row[6..8]);
        self.next_free.write(&mut row[8..12]);
        self.gap.write(&mut row[12..16]);
        self.updates.write(&mut row[16..24]);
        self.tree_writes.write(&mut row[24..32]);
    }

    fn read(bytes: &[u8]) -> Header {
        Header {
            level: u8::read(bytes),
            mark: u8::read(&bytes[1..]),
            count: u16::read(&bytes[2..]),
            children: u8::read(&bytes[4..]),
            kind: u8::read(&bytes[5..]),
            unused: u16::read(&bytes[6..]),
            next_free: u32::read(&bytes[8..]),
            gap: u32::read(&bytes[12..]),
            updates: u64::read(&bytes[16..]),
            tree_writes: u64::read(&bytes[24..]),
        }
    }
}
