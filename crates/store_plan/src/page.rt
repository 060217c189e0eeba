// What a page answers; its entries stand in the table that it was lent.
#[derive(Clone, Copy, PartialEq, Eq, Debug)]
pub struct Page {
    // How many entries of the table are filled: a count, since the table is the caller's.
    pub entries: usize,
    // The blocks read.
    pub reads: u32,
    // The first key past the leaf's span, if that is at most the high key.
    pub next: Option<u32>,
}
