// Tables: rows behind one another, and zeros to the end.
ghost use Rattle.std.specs.Prelude.{◌≡◌, ◌+◌, ◌*◌, ◌≤◌, List, ◌++◌, length, take, drop, vec_len, vec_capacity};
ghost use Rattle.rows.specs.Tables.{rows_of, table_of, values_of, TablesRoundTrip};

use crate::row::Row;

// Fills the table with the values, and zeros behind them.
pub fn write_table<T: Row>(table: &mut [u8], values: &[T])
    requires { T.coding.size * length values.now ≤ length table.old }
    ensures { table.new ≡ table_of T.coding (length table.old) values.now }
{
    // By places, since nothing is known of a slice once `chunks_exact_mut` has lent its parts.
    let size = T::size();
    for (i, value) in values.iter().enumerate() {
        let from = i * size;
        value.write(&mut table[from..from + size]);
    }
    table[values.len() * size..].fill(0);
}

// Adds what the first `count` rows say to `values`, which has room for it, and gives the bytes behind them.
pub fn read_table<'a, T: Row>(table: &'a [u8], count: usize, values: &mut Vec<T>) -> &'a [u8]
    requires rows { T.coding.size * count ≤ length table.now }
    requires room { vec_len values.old + count ≤ vec_capacity values.old }
    ensures values { values.new.items ≡ values.old.items ++ values_of T.coding count table.now }
    ensures capacity { vec_capacity values.new ≡ vec_capacity values.old }
    ensures length { vec_len values.new ≡ vec_len values.old + count }
    ensures rest { result.now ≡ drop (T.coding.size * count) table.now }
{
    // By places, since `chunks_exact` wants rows of at least one byte.
    let size = T::size();
    for row in 0..count {
        values.push_reserved(T::read(&table[row * size..]));
    }
    &table[count * size..]
}

// Values come back from their table, and a table of valid rows and zeros from its values.
pub fn tables_round_trip<T: Row>()
    ensures { TablesRoundTrip T.coding }
{}
