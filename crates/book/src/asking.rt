// What a book is asked.
ghost use Rattle.std.specs.Prelude.{◌≡◌};
ghost use Rattle.book.specs.Views.{state_of, after_call, queried_in, figures_in, SameAllowances};

use crate::book::OpenBook;
use crate::stores::query_store;
use blocks::device::Device;
use calls::answer::{Found, Holding};
use calls::part::Part;
use calls::refusal::Refusal;
use messages::latest_day::LatestDay;
use messages::quantity::Quantity;
use store_plan::figures::Figures;

impl<S: Device, D: Device> OpenBook<S, D> {
    // What the sheet holds, and the blocks read of each store. The day store is asked only if the stock store holds the sheet.
    pub fn query(&mut self, sheet: u32) -> Result<Found, Refusal>
        ensures value { after_call result (state_of self.new) ≡ queried_in (state_of self.old) sheet }
        ensures allowances { SameAllowances (state_of self.old) (state_of self.new) }
    {
        self.stopped()?;
        let (word, stock_reads) = query_store(Part::Stock, &mut self.stock, sheet)?;
        let Some(word) = word else {
            return Ok(Found {
                holding: None,
                stock_reads,
                day_reads: 0,
            });
        };
        let (day, day_reads) = query_store(Part::Day, &mut self.day, sheet)?;
        let holding = Holding {
            quantity: word.cast_signed(),
            day: day.unwrap_or(0),
        };
        Ok(Found {
            holding: Some(holding),
            stock_reads,
            day_reads,
        })
    }

    // The updates, the height and the tree writes of a store; zeros if its opening was refused.
    pub fn figures(&self, part: Part) -> Figures
        ensures { result ≡ figures_in (state_of self.now) part }
    {
        match part {
            Part::Stock => self.stock.figures(),
            Part::Day => self.day.figures(),
        }
    }
}
