// What a book answers to a call.
use crate::refusal::Refusal;
use plan::cause::Report;
use store_plan::figures::Figures;

// What a sheet holds.
#[derive(Clone, Copy, PartialEq, Eq, Debug)]
pub struct Holding {
    pub quantity: i64,
    // The latest day, 0 if the day store has none.
    pub day: u64,
}

// What a query found, and the blocks that it read of each store.
#[derive(Clone, Copy, PartialEq, Eq, Debug)]
pub struct Found {
    pub holding: Option<Holding>,
    pub stock_reads: u32,
    pub day_reads: u32,
}

// What a total came to, and the pages and blocks of the stock store that it read. It reads nothing of the day store.
#[derive(Clone, Copy, PartialEq, Eq, Debug)]
pub struct Sum {
    pub sheets: u64,
    pub sum: i64,
    pub pages: u64,
    pub stock_reads: u64,
}

#[derive(Clone, Copy, PartialEq, Eq, Debug)]
pub enum Answer {
    // The call does not fit the book: opening stands on a closed book, every other call on an open one. Nothing was done.
    NotMade,
    // Each store was opened, or is stopped by this refusal.
    Opened {
        stock: Option<Report>,
        day: Option<Report>,
    },
    // An update was accepted.
    Done,
    Refused(Refusal),
    Found(Found),
    Total(Sum),
    Figures(Figures),
    // The book was closed; whether each store was found not stopped. There is no value beside the flags, so they are no options.
    Closed {
        stock: bool,
        day: bool,
    },
}
