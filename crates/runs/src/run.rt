// Every list of calls on one book.
ghost use Rattle.std.specs.Prelude.{◌≡◌, ◌+◌, ◌<◌, length, IfOk, IfErr, vec_len, vec_capacity};
ghost use Rattle.book.specs.Views.{devices_of};
ghost use Rattle.runs.specs.Books.{closed_view, view};
ghost use Rattle.runs.specs.Ends.{Ended, LeftOver};
ghost use Rattle.runs.specs.Rooms.{IsEmptyWithRoom};
ghost use Rattle.store_plan.specs.Pages.{table_length};
ghost use Rattle.traces.specs.Runs.{called, Traced};
ghost use Rattle.traces.specs.Steps.{Went};

use crate::turn::{Book, Turn, close_book, make_turn};
use blocks::device::Device;
use book::book::ClosedBook;
use book::rooms::Rooms;
use calls::call::Call;
use calls::point::Point;
use calls::refusal::Refusal;
use messages::entry::Entry;
use std::alloc::{AllocError, Global};
use steps::gathering::MOST_IN_PAGE;

// Why a run was not made.
#[derive(Clone, Copy)]
pub enum Reason {
    NoMemory,
    // The devices cannot be formatted.
    Refused(Refusal),
}

// A run that was not made, with the devices as they were handed in.
pub struct NotRun<S, D> {
    pub stock: S,
    pub day: D,
    pub reason: Reason,
}

// A run: the devices, and what was seen after each call.
pub struct Finished<S, D> {
    pub stock: S,
    pub day: D,
    pub trace: Vec<Point>,
}

// All the memory of a run.
#[derive(Drop)]
struct Memory {
    rooms: Rooms,
    // Room for a point of each call, and one more.
    trace: Vec<Point>,
    // The table that totals work in.
    table: Vec<Entry<u64>>,
}

fn reserve(heap: Global, calls: usize) -> Result<Memory, AllocError>
    ensures trace { IfOk result (λ m. IsEmptyWithRoom m.trace (calls + 1)) }
    ensures table { IfOk result (λ m. vec_len m.table ≡ table_length) }
{
    // One point more than there are calls, for closing: the sum always fits, but no contract says so.
    let points = calls.checked_add(1).ok_or(AllocError)?;
    Ok(Memory {
        trace: Vec::with_capacity(heap, points)?,
        table: vec![in heap; Entry { key: 0, value: 0 }; MOST_IN_PAGE]?,
        rooms: Rooms::new(heap)?,
    })
}

// Makes each call in turn, and adds what is seen to the trace, which has room.
fn play<S: Device, D: Device>(
    mut book: Book<S, D>,
    calls: &[Call],
    table: &mut [Entry<u64>],
    trace: &mut Vec<Point>,
) -> Book<S, D>
    requires table { length table.old ≡ table_length }
    requires trace { IsEmptyWithRoom trace.old (length calls.now + 1) }
    ensures calls { called trace.new.items ≡ calls.now }
    ensures went { Went (view book) trace.new.items (view result) }
    ensures room { vec_len trace.new < vec_capacity trace.new }
{
    for call in calls {
        let point = match book.make_call(*call, table) {
            Some(point) => point,
            None => {
                let Turn { book: after, point } = make_turn(book, *call);
                book = after;
                point
            }
        };
        trace.push_reserved(point);
    }
    book
}

// Closes the book if it is open, as one more call.
fn end<S: Device, D: Device>(book: Book<S, D>, trace: &mut Vec<Point>) -> ClosedBook<S, D>
    requires { vec_len trace.old < vec_capacity trace.old }
    ensures { Ended (view book) trace.old.items trace.new.items (closed_view S.Device D.Device result) }
{
    match book {
        Book::Closed(book) => book,
        Book::Open(book) => {
            let (mut book, answer) = close_book(book);
            let (stock, day) = book.readings();
            trace.push_reserved(Point {
                call: Call::Close,
                answer,
                stock,
                day,
            });
            book
        }
    }
}

// Hands back the devices of a closed book, and lets go of the memory.
fn hand_back<S: Device, D: Device>(book: ClosedBook<S, D>) -> (S, D)
    ensures stock { result.0 ≡ (devices_of book).0 }
    ensures day { result.1 ≡ (devices_of book).1 }
{
    let (stock, day, _rooms) = book.into_parts();
    (stock, day)
}

// Formats a book on two devices and makes the calls in turn, whatever they are: a call that does not fit the book is not made. A book that the
// calls leave open is closed at the end, as one more call. All memory is reserved before anything is done.
pub fn run<S: Device, D: Device>(
    heap: Global,
    stock: S,
    day: D,
    calls: &[Call],
) -> Result<Finished<S, D>, NotRun<S, D>>
    ensures finished { IfOk result (λ done. Traced (S.Device.meaning stock) (D.Device.meaning day) calls.now
        done.trace.items (S.Device.meaning done.stock) (D.Device.meaning done.day)) }
    ensures not_run { IfErr result (λ left. LeftOver (S.Device.meaning stock) (D.Device.meaning day)
        left.reason (S.Device.meaning left.stock) (D.Device.meaning left.day)) }
{
    // The devices go back with the reason, so `?` does not do.
    let Ok(memory) = reserve(heap, calls.len()) else {
        return Err(NotRun {
            stock,
            day,
            reason: Reason::NoMemory,
        });
    };
    let Memory {
        rooms,
        mut trace,
        mut table,
    } = memory;
    let mut book = ClosedBook::new(stock, day, rooms);
    if let Err(refusal) = book.format() {
        let (stock, day) = hand_back(book);
        return Err(NotRun {
            stock,
            day,
            reason: Reason::Refused(refusal),
        });
    }
    let book = play(Book::Closed(book), calls, &mut table, &mut trace);
    let book = end(book, &mut trace);
    let (stock, day) = hand_back(book);
    Ok(Finished { stock, day, trace })
}
