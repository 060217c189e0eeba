// The two stores of a book.
#[derive(Clone, Copy, PartialEq, Eq, Debug)]
pub enum Part {
    // Quantities by sheet.
    Stock,
    // The latest day by sheet.
    Day,
}
