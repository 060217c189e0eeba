// One call on a book that is closed or open, and what is then seen.
ghost use Rattle.std.specs.Prelude.{◌≡◌, length, IfSome, IfNone};
ghost use Rattle.book.specs.Views.{CountsFit};
ghost use Rattle.runs.specs.Books.{closed_view, open_view, view};
ghost use Rattle.runs.specs.Turns.{IsTurn};
ghost use Rattle.store_plan.specs.Pages.{table_length};
ghost use Rattle.traces.specs.Steps.{change_answer, Does, Made};
ghost use Rattle.traces.specs.Views.{View, stock_reading, day_reading};

use blocks::device::Device;
use book::book::{ClosedBook, OpenBook};
use calls::answer::Answer;
use calls::call::Call;
use calls::point::{Point, Reading};
use calls::refusal::Refusal;
use messages::entry::Entry;

// A book, closed or open.
pub enum Book<S: Device, D: Device> {
    Closed(ClosedBook<S, D>),
    Open(OpenBook<S, D>),
}

// A book after a call, and what was seen.
pub struct Turn<S: Device, D: Device> {
    pub book: Book<S, D>,
    pub point: Point,
}

impl<S: Device, D: Device> Book<S, D> {
    // What is seen of the stock store and of the day store.
    fn readings(&mut self) -> (Reading, Reading)
        ensures stock { result.0 ≡ stock_reading (view self.old) }
        ensures day { result.1 ≡ day_reading (view self.old) }
        ensures fits { CountsFit result.0 × CountsFit result.1 }
        ensures same { view self.new ≡ view self.old }
    {
        match self {
            Book::Closed(book) => book.readings(),
            Book::Open(book) => book.readings(),
        }
    }

    // What is seen after a call that was so answered.
    fn point(&mut self, call: Call, answer: Answer) -> Point
        ensures call { result.call ≡ call }
        ensures made { (v : View) → Does v call answer (view self.old) → Made v result (view self.new) }
    {
        let (stock, day) = self.readings();
        Point {
            call,
            answer,
            stock,
            day,
        }
    }

    // Makes a call in place, and tells the answer. A call that does not fit the book is not made. None for a call that opens or closes a book, which
    // moves it.
    fn answer_call(&mut self, call: Call, table: &mut [Entry<u64>]) -> Option<Answer>
        requires { length table.old ≡ table_length }
        ensures made { IfSome result (λ answer. Does (view self.old) call answer (view self.new)) }
        ensures left { IfNone result ((view self.new ≡ view self.old) × IsTurn call) }
    {
        match (self, call) {
            (_, Call::Open | Call::Close) => None,
            (Book::Closed(_), _) => Some(Answer::NotMade),
            (Book::Open(book), Call::Booking { sheet, amount, day }) => {
                Some(change_answer(book.booking(sheet, amount, day)))
            }
            (Book::Open(book), Call::Count { sheet, amount, day }) => {
                Some(change_answer(book.count(sheet, amount, day)))
            }
            (Book::Open(book), Call::Strike { sheet }) => Some(change_answer(book.strike(sheet))),
            (Book::Open(book), Call::Query { sheet }) => Some(answer_query(book, sheet)),
            (Book::Open(book), Call::Total { low, high }) => {
                Some(answer_total(book, low, high, table))
            }
            (Book::Open(book), Call::Figures { part }) => {
                Some(Answer::Figures(book.figures(part)))
            }
        }
    }

    // Makes a call in place, and looks at the book. None for a call that opens or closes a book, which moves it.
    pub(crate) fn make_call(&mut self, call: Call, table: &mut [Entry<u64>]) -> Option<Point>
        requires { length table.old ≡ table_length }
        ensures made { IfSome result (λ point. (point.call ≡ call) × Made (view self.old) point (view self.new)) }
        ensures left { IfNone result ((view self.new ≡ view self.old) × IsTurn call) }
    {
        let answer = self.answer_call(call, table)?;
        Some(self.point(call, answer))
    }
}

// The answer of an update.
fn change_answer(made: Result<(), Refusal>) -> Answer
    ensures { result ≡ change_answer made }
{
    made.map_or_else(Answer::Refused, |()| Answer::Done)
}

// Asks an open book for a sheet.
fn answer_query<S: Device, D: Device>(book: &mut OpenBook<S, D>, sheet: u32) -> Answer
    ensures { Does (open_view book.old) (Call.Query sheet) result (open_view book.new) }
{
    book.query(sheet)
        .map_or_else(Answer::Refused, Answer::Found)
}

// Asks an open book for the total of a range of sheets.
fn answer_total<S: Device, D: Device>(
    book: &mut OpenBook<S, D>,
    low: u32,
    high: u32,
    table: &mut [Entry<u64>],
) -> Answer
    requires { length table.old ≡ table_length }
    ensures { Does (open_view book.old) (Call.Total low high) result (open_view book.new) }
{
    book.total(low, high, table)
        .map_or_else(Answer::Refused, Answer::Total)
}

// Closes an open book, and tells the answer.
pub(crate) fn close_book<S: Device, D: Device>(book: OpenBook<S, D>) -> (ClosedBook<S, D>, Answer)
    ensures { Does (open_view book) Call.Close result.1 (closed_view S.Device D.Device result.0) }
{
    let (stock, day) = book.standing();
    let answer = Answer::Closed { stock, day };
    (book.close(), answer)
}

// Makes a call that opens or closes a book, and tells the answer.
fn turn_over<S: Device, D: Device>(book: Book<S, D>, call: Call) -> (Book<S, D>, Answer)
    requires { IsTurn call }
    ensures { Does (view book) call result.1 (view result.0) }
{
    match (book, call) {
        (Book::Closed(book), Call::Open) => {
            let book = book.open();
            let (stock, day) = book.stops();
            (Book::Open(book), Answer::Opened { stock, day })
        }
        (Book::Open(book), Call::Close) => {
            let (book, answer) = close_book(book);
            (Book::Closed(book), answer)
        }
        (book, _) => (book, Answer::NotMade),
    }
}

// Makes a call that opens or closes a book, and looks at the book.
pub(crate) fn make_turn<S: Device, D: Device>(book: Book<S, D>, call: Call) -> Turn<S, D>
    requires { IsTurn call }
    ensures call { result.point.call ≡ call }
    ensures made { Made (view book) result.point (view result.book) }
{
    let (mut book, answer) = turn_over(book, call);
    let point = book.point(call, answer);
    Turn { book, point }
}
