// Bookings, counts and strikes.
ghost use Rattle.std.specs.Prelude.{◌≡◌, None};
ghost use Rattle.std.specs.Result.{result_err};
ghost use Rattle.book.specs.Views.{state_of, after_call, stopped_in, updated_in, booked_in, counted_in, struck_in, UpdateLowers};
ghost use Rattle.book_plan.specs.Books.{bad_value};
ghost use Rattle.messages.specs.Outcomes.{ok_unless};

use crate::book::OpenBook;
use crate::stores::{check_store, update_store};
use blocks::device::Device;
use calls::part::Part;
use calls::refusal::Refusal;
use messages::latest_day::LatestDay;
use messages::message::Message;
use messages::quantity::Quantity;

// The largest amount of a booking or a count, either way.
const MOST_AMOUNT: u64 = 1_000_000_000;

// Days are numbered from 1 to this one.
const LAST_DAY: u64 = 999_999;

// Refuses an amount or a day that is out of its range.
pub fn check_value(amount: i64, day: u64) -> Result<(), Refusal>
    ensures { result ≡ ok_unless (bad_value amount day) tt }
{
    if amount.unsigned_abs() <= MOST_AMOUNT && (1..=LAST_DAY).contains(&day) {
        Ok(())
    } else {
        Err(Refusal::BadValue)
    }
}

impl<S: Device, D: Device> OpenBook<S, D> {
    // Refuses if a store is stopped, by what stopped it.
    pub fn stopped(&self) -> Result<(), Refusal>
        ensures { result ≡ ok_unless (stopped_in (state_of self.now)) tt }
    {
        if let Some(first) = self.stock.stopped_by() {
            return Err(Refusal::Stopped {
                part: Part::Stock,
                first,
            });
        }
        if let Some(first) = self.day.stopped_by() {
            return Err(Refusal::Stopped {
                part: Part::Day,
                first,
            });
        }
        Ok(())
    }

    // Gives each store a message on the sheet, unless the value is refused. The conditions of both are checked before either is touched; a
    // fault ends the update, and what was done stands.
    fn update(
        &mut self,
        value: Result<(), Refusal>,
        sheet: u32,
        stock: Message,
        day: Message,
    ) -> Result<(), Refusal>
        ensures value { after_call result (state_of self.new) ≡ updated_in (state_of self.old) (result_err value) sheet stock day }
        ensures lowered { UpdateLowers (result_err value) (state_of self.old) (state_of self.new) }
    {
        self.stopped()?;
        value?;
        check_store(Part::Stock, &mut self.stock)?;
        check_store(Part::Day, &mut self.day)?;
        update_store(Part::Stock, &mut self.stock, sheet, stock)?;
        update_store(Part::Day, &mut self.day, sheet, day)
    }

    // Adds an amount to the sheet's quantity, and a day.
    pub fn booking(&mut self, sheet: u32, amount: i64, day: u64) -> Result<(), Refusal>
        ensures value { after_call result (state_of self.new) ≡ booked_in (state_of self.old) sheet amount day }
        ensures lowered { UpdateLowers (bad_value amount day) (state_of self.old) (state_of self.new) }
    {
        let delta = Message::Add(amount.cast_unsigned());
        self.update(check_value(amount, day), sheet, delta, Message::Add(day))
    }

    // Puts the sheet's quantity, and adds a day.
    pub fn count(&mut self, sheet: u32, amount: i64, day: u64) -> Result<(), Refusal>
        ensures value { after_call result (state_of self.new) ≡ counted_in (state_of self.old) sheet amount day }
        ensures lowered { UpdateLowers (bad_value amount day) (state_of self.old) (state_of self.new) }
    {
        let value = Message::Put(amount.cast_unsigned());
        self.update(check_value(amount, day), sheet, value, Message::Add(day))
    }

    // Removes the sheet from both stores.
    pub fn strike(&mut self, sheet: u32) -> Result<(), Refusal>
        ensures value { after_call result (state_of self.new) ≡ struck_in (state_of self.old) sheet }
        ensures lowered { UpdateLowers None (state_of self.old) (state_of self.new) }
    {
        self.update(Ok(()), sheet, Message::Remove, Message::Remove)
    }
}
