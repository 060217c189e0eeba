// A page of a store.
ghost use Rattle.std.specs.Prelude.{◌≡◌, ℕ, ◌<◌, ◌≤◌, length, IfOk, OnOk, Some};
ghost use Rattle.messages.specs.Outcomes.{ok_unless};
ghost use Rattle.steps.specs.Outcomes.{SameAllowance};
ghost use Rattle.store.specs.Views.{call_of, contents};
ghost use Rattle.store_laws.specs.LaidOut.{PageLaidOut};
ghost use Rattle.store_plan.specs.Pages.{filled, page_refusal, paged_store, GoesOn};

use crate::fault::Fault;
use crate::store::Store;
use blocks::device::Device;
use messages::entry::Entry;
use messages::kind::Kind;
use plan::refusal::StoreRefusal;
use steps::gathering::MOST_IN_PAGE;
use store_plan::page::Page;

// Whether a page may be put in a table of so many entries; else the first condition that fails.
fn check_page(low: u32, high: u32, room: usize) -> Result<(), StoreRefusal>
    ensures value { result ≡ ok_unless (page_refusal low high room) tt }
    ensures room { OnOk result (2304 ≤ room) }
{
    if low > high {
        return Err(StoreRefusal::EmptyRange);
    }
    if room < MOST_IN_PAGE {
        return Err(StoreRefusal::ShortPage);
    }
    Ok(())
}

// Writes a page's entries to the front of the table, and zeros after them.
fn fill_table(table: &mut [Entry<u64>], entries: &[Entry<u64>])
    requires { length entries.now ≤ length table.old }
    ensures { table.new ≡ filled (length table.old) entries.now }
{
    let count = entries.len();
    table[..count].copy_from_slice(entries);
    table[count..].fill(Entry { key: 0, value: 0 });
}

impl<D: Device, K: Kind> Store<D, K> {
    // The body of a page.
    fn turn(
        &mut self,
        low: u32,
        high: u32,
        table: &mut [Entry<u64>],
    ) -> Result<Page, Fault<D::Fault>>
        ensures value { record { called = call_of D.Device result self.new; table = table.new } ≡ paged_store K.Kind.algebra (contents D.Device self.old) (contents D.Device self.old).root low high table.old }
        ensures allowance { SameAllowance D.Device self.old.device self.new.device }
        ensures onward { IfOk result (GoesOn low high) }
        ensures fits { IfOk result (λ p. (p.entries ≤ 2304) × (p.entries ≤ length table.old)) }
    {
        self.check_open()?;
        check_page(low, high, table.len())?;
        let bench = &mut self.workspace.bench;
        match bench.page::<D, K>(&mut self.device, &self.workspace.root, low, high) {
            Ok(page) => {
                fill_table(table, &bench.gathering.entries);
                Ok(page)
            }
            Err(cause) => {
                fill_table(table, &[]);
                Err(Fault::Met(cause))
            }
        }
    }

    // The present keys from `low` up to and with `high`, as far as the span of the leaf of `low` goes, with their words, in rising order
    // at the front of the table. A fault in reading leaves the store open, and the table zero.
    pub fn page(
        &mut self,
        low: u32,
        high: u32,
        table: &mut [Entry<u64>],
    ) -> Result<Page, Fault<D::Fault>>
        ensures value { record { called = call_of D.Device result self.new; table = table.new } ≡ paged_store K.Kind.algebra (contents D.Device self.old) (contents D.Device self.old).root low high table.old }
        ensures allowance { SameAllowance D.Device self.old.device self.new.device }
        ensures onward { IfOk result (GoesOn low high) }
        ensures fits { IfOk result (λ p. (p.entries ≤ 2304) × (p.entries ≤ length table.old)) }
        ensures laid_out { PageLaidOut K.Kind.algebra (contents D.Device self.old) low high table.old (record { called = call_of D.Device result self.new; table = table.new }) }
    {
        self.turn(low, high, table)
    }
}
