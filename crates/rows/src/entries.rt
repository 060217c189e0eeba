// Entries as rows.
ghost use Rattle.std.specs.Prelude.{◌≡◌, ◌≤◌};
ghost use Rattle.std.proofs.Common.{lit≤};
ghost use Rattle.rows.specs.Entries.{message_word, message_coding, entry_coding};

use crate::row::Row;
use crate::sort::Sort;
use messages::entry::Entry;
use messages::message::Message;

// The value or delta of a message, 0 of a remove. A function, since `Message` is of a crate below.
pub fn message_word(message: Message) -> u64
    ensures { result ≡ message_word message }
{
    match message {
        Message::Put(word) | Message::Add(word) => word,
        Message::Remove => 0,
    }
}

impl Row for Message {
    ghost coding = { message_coding };

    fn size() -> usize {
        9
    }

    fn write(self, row: &mut [u8]) {
        (Sort::from(self) as u8).write(&mut row[..1]);
        message_word(self).write(&mut row[1..]);
    }

    fn read(bytes: &[u8]) -> Message {
        let word = u64::read(&bytes[1..]);
        match Sort::try_from(u8::read(bytes)) {
            Ok(Sort::Put) => Message::Put(word),
            Ok(Sort::Add) => Message::Add(word),
            _ => Message::Remove,
        }
    }
}

// A type whose rows are short, so that a key has room in front of one.
pub trait ShortRow: Row {
    ghost short: { Self.Row.coding.size ≤ 255 };
}

impl ShortRow for u64 {
    ghost short = { lit≤ tt };
}

impl ShortRow for Message {
    ghost short = { lit≤ tt };
}

impl<V: ShortRow> Row for Entry<V> {
    ghost coding = { entry_coding V.coding };

    fn size() -> usize {
        4 + V::size()
    }

    fn write(self, row: &mut [u8]) {
        self.key.write(&mut row[..4]);
        self.value.write(&mut row[4..]);
    }

    fn read(bytes: &[u8]) -> Entry<V> {
        Entry {
            key: u32::read(bytes),
            value: V::read(&bytes[4..]),
        }
    }
}
