// A call of a book.
use crate::part::Part;

#[derive(Clone, Copy, PartialEq, Eq, Debug)]
pub enum Call {
    // Opens a closed book.
    Open,
    // Adds an amount to a sheet's quantity, and a day.
    Booking { sheet: u32, amount: i64, day: u64 },
    // Puts a sheet's quantity, and adds a day.
    Count { sheet: u32, amount: i64, day: u64 },
    // Removes a sheet.
    Strike { sheet: u32 },
    // Asks for a sheet's quantity and latest day.
    Query { sheet: u32 },
    // Asks for the number of sheets from low up to and with high, and the sum of their quantities.
    Total { low: u32, high: u32 },
    // Asks for the figures of a store.
    Figures { part: Part },
    // Closes an open book.
    Close,
}
