// The total of a range of sheets, page by page.
ghost use Rattle.std.specs.Prelude.{◌≡◌, suc, ◌+◌, ◌%◌, ◌^◌};
ghost use Rattle.book.specs.Views.{known, allowance_of, state_of, after_total, totalled_in, SameAllowances};
ghost use Rattle.book_plan.specs.Totals.{nothing, total_from};
ghost use Rattle.messages.specs.Words.{signed, word};
ghost use Rattle.tree.specs.Laws.{sum_of_words};

use crate::book::OpenBook;
use crate::stores::page_store;
use blocks::device::Device;
use calls::answer::Sum;
use calls::part::Part;
use calls::refusal::Refusal;
use messages::entry::Entry;
use messages::quantity::Quantity;
use store::store::Store;

// Adds the words of a page, as signed numbers, by wrapping.
fn add_words(mut sum: i64, page: &[Entry<u64>]) -> i64
    ensures { result ≡ signed ((word sum + sum_of_words page.now) % 2 ^ 64) }
{
    for item in page {
        sum = sum.wrapping_add(item.value.cast_signed());
    }
    sum
}

// Adds up the pages of a store from `low` on, each from the key that the page before gives.
fn total_store<S: Device>(
    store: &mut Store<S, Quantity>,
    low: u32,
    high: u32,
    table: &mut [Entry<u64>],
) -> Result<Sum, Refusal>
    ensures value { record { answer = result; stock = known store.new; table = table.new } ≡ total_from (suc high) (known store.old) high table.old nothing low }
    ensures allowance { allowance_of store.new ≡ allowance_of store.old }
{
    let mut sum = Sum {
        sheets: 0,
        sum: 0,
        pages: 0,
        stock_reads: 0,
    };
    let mut next = Some(low);
    while let Some(first) = next {
        let page = page_store(Part::Stock, store, first, high, table)?;
        let filled = page.entries;
        sum = Sum {
            sheets: sum.sheets + filled as u64,
            sum: add_words(sum.sum, &table[..filled]),
            pages: sum.pages + 1,
            stock_reads: sum.stock_reads + u64::from(page.reads),
        };
        next = page.next;
    }
    Ok(sum)
}

impl<S: Device, D: Device> OpenBook<S, D> {
    // The number of sheets from `low` up to and with `high`, the sum of their quantities, and the pages and blocks read. The table then
    // holds the last page.
    pub fn total(&mut self, low: u32, high: u32, table: &mut [Entry<u64>]) -> Result<Sum, Refusal>
        ensures value { after_total result (state_of self.new) table.new ≡ totalled_in (state_of self.old) low high table.old }
        ensures day { (state_of self.new).day ≡ (state_of self.old).day }
        ensures allowances { SameAllowances (state_of self.old) (state_of self.new) }
    {
        self.stopped()?;
        total_store(&mut self.stock, low, high, table)
    }
}
