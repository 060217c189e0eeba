// Reading a table of entries, with its rules, in one pass.
ghost use Rattle.std.specs.Prelude.{◌≡◌, ℕ, ◌+◌, ◌*◌, ◌≤◌, Bool, true, List, ◌++◌, length, drop, vec_len, vec_capacity};
ghost use Rattle.rows.specs.Tables.{values_of};
ghost use Rattle.rules.specs.Keys.{behind_key, known_message, exact_message, rows_in_order, rows_exact};

use messages::entry::Entry;
use messages::message::Message;
use messages::span::Span;
use rows::bytes::is_zero;
use rows::entries::ShortRow;
use rows::row::Row;
use rows::sort::Sort;

// What stands behind a key in a table, where its bytes may be unknown or inexact.
pub trait Value: ShortRow {
    // The bytes have a meaning.
    ghost known: { List ℕ → Bool };

    // The bytes are zero where the value has no word.
    ghost exact: { List ℕ → Bool };

    fn is_known(bytes: &[u8]) -> bool
        requires { Self.Row.coding.size ≤ length bytes.now }
        ensures { result ≡ known bytes.now };

    fn is_exact(bytes: &[u8]) -> bool
        requires { Self.Row.coding.size ≤ length bytes.now }
        ensures { result ≡ exact bytes.now };
}

// Any word is a record's.
impl Value for u64 {
    ghost known = { λ bytes. true };

    ghost exact = { λ bytes. true };

    fn is_known(bytes: &[u8]) -> bool {
        true
    }

    fn is_exact(bytes: &[u8]) -> bool {
        true
    }
}

impl Value for Message {
    ghost known = { known_message };

    ghost exact = { exact_message };

    fn is_known(bytes: &[u8]) -> bool {
        Sort::try_from(u8::read(bytes)).is_ok()
    }

    fn is_exact(bytes: &[u8]) -> bool {
        u8::read(bytes) != Sort::Remove as u8 || u64::read(&bytes[1..]) == 0
    }
}

// A row that begins with a key, and whose value may be unknown or inexact.
pub trait KeyedRow: Row {
    ghost key: { Self → ℕ };

    // The row's value has a meaning.
    ghost known: { List ℕ → Bool };

    // The row has zeros where its value has no word.
    ghost exact: { List ℕ → Bool };

    fn key(self) -> u32
        ensures { result ≡ key self };

    fn is_known(row: &[u8]) -> bool
        requires { Self.Row.coding.size ≤ length row.now }
        ensures { result ≡ known row.now };

    fn is_exact(row: &[u8]) -> bool
        requires { Self.Row.coding.size ≤ length row.now }
        ensures { result ≡ exact row.now };
}

impl<V: Value> KeyedRow for Entry<V> {
    ghost key = { λ e. e.key };

    ghost known = { behind_key V.known };

    ghost exact = { behind_key V.exact };

    fn key(self) -> u32 {
        self.key
    }

    fn is_known(row: &[u8]) -> bool {
        V::is_known(&row[4..])
    }

    fn is_exact(row: &[u8]) -> bool {
        V::is_exact(&row[4..])
    }
}

// What a pass over a table of entries found. Each is told of any table, whatever the other is.
#[derive(Clone, Copy, PartialEq, Eq, Debug)]
pub struct TablePass {
    // Keys rise strictly, inside the span, and values are known.
    pub in_order: bool,
    // Rows are exact, and zeros follow them.
    pub exact: bool,
}

// Adds the entries of the first `count` rows to `entries`, which has room for them, and checks the whole table.
pub fn read_entries<T: KeyedRow>(
    table: &[u8],
    count: usize,
    span: Span,
    entries: &mut Vec<T>,
) -> TablePass
    requires rows { T.Row.coding.size * count ≤ length table.now }
    requires room { vec_len entries.old + count ≤ vec_capacity entries.old }
    ensures entries { entries.new.items ≡ entries.old.items ++ values_of T.Row.coding count table.now }
    ensures capacity { vec_capacity entries.new ≡ vec_capacity entries.old }
    ensures length { vec_len entries.new ≡ vec_len entries.old + count }
    ensures order { result.in_order ≡ rows_in_order T.Row.coding T.key T.known span.low span.high count table.now }
    ensures exact { result.exact ≡ rows_exact T.Row.coding T.exact count table.now }
{
    let mut rest = table;
    let mut next = u64::from(span.low);
    let mut in_order = true;
    let mut exact = true;
    for _row in 0..count {
        let entry = T::read(rest);
        let key = u64::from(entry.key());
        in_order &= (next..span.high).contains(&key);
        in_order &= T::is_known(rest);
        exact &= T::is_exact(rest);
        next = key + 1;
        entries.push_reserved(entry);
        rest = &rest[T::size()..];
    }
    TablePass {
        in_order,
        exact: exact && is_zero(rest),
    }
}
