// The calls of a store, with its refusals under the name of its part of the book.
ghost use Rattle.std.specs.Prelude.{◌≡◌, ℕ, ◌*◌, ◌<◌, ◌≤◌, length, IfOk, Some};
ghost use Rattle.book.specs.Views.{known, allowance_of, checked_in, updated_store_in, queried_store_in, paged_in};
ghost use Rattle.blocks.specs.Media.{LoweredBy};
ghost use Rattle.book_plan.specs.Told.{told};
ghost use Rattle.calls.specs.declared.refusal.Refusal.TheVariants.{Met};
ghost use Rattle.plan.specs.Reports.{told_by};
ghost use Rattle.store.specs.Views.{answer};

use blocks::device::Device;
use calls::part::Part;
use calls::refusal::Refusal;
use messages::entry::Entry;
use messages::kind::Kind;
use messages::message::Message;
use plan::cause::Cause;
use store::fault::Fault;
use store::report::report_of;
use store::store::Store;
use store_plan::page::Page;

// A cause that a store met, told as the book's refusal.
pub(crate) fn met<D: Device>(part: Part, cause: Cause<D::Fault>) -> Refusal
    ensures { result ≡ Met part (told_by D.Device.number cause) }
{
    Refusal::Met {
        part,
        report: report_of::<D>(cause),
    }
}

// A store's answer, told as the book's.
fn tell<D: Device, T>(part: Part, res: Result<T, Fault<D::Fault>>) -> Result<T, Refusal>
    ensures { result ≡ told part (answer D.Device.number res) }
{
    res.map_err(|fault| match fault {
        Fault::Met(cause) => met::<D>(part, cause),
        Fault::Stopped(cause) => Refusal::Stopped {
            part,
            first: report_of::<D>(cause),
        },
    })
}

// Whether the store would refuse an update now. Nothing changes.
pub(crate) fn check_store<D: Device, K: Kind>(
    part: Part,
    store: &mut Store<D, K>,
) -> Result<(), Refusal>
    ensures value { result ≡ told part (checked_in (known store.old) (allowance_of store.old)) }
    ensures same { known store.new ≡ known store.old }
    ensures allowance { allowance_of store.new ≡ allowance_of store.old }
{
    tell::<D, _>(part, store.check_update())
}

// Lets a message arrive at a key of the store.
pub(crate) fn update_store<D: Device, K: Kind>(
    part: Part,
    store: &mut Store<D, K>,
    key: u32,
    message: Message,
) -> Result<(), Refusal>
    ensures value { result ≡ told part (updated_store_in K.Kind.algebra (known store.old) (allowance_of store.old) key message).answer }
    ensures after { known store.new ≡ (updated_store_in K.Kind.algebra (known store.old) (allowance_of store.old) key message).contents }
    ensures lowered { LoweredBy (2 * (known store.old).figures.height) (allowance_of store.old) (allowance_of store.new) }
{
    tell::<D, _>(part, store.update(key, message))
}

// What the store holds of a key, and the blocks that were read to tell.
pub(crate) fn query_store<D: Device, K: Kind>(
    part: Part,
    store: &mut Store<D, K>,
    key: u32,
) -> Result<(Option<u64>, u32), Refusal>
    ensures value { result ≡ told part (queried_store_in K.Kind.algebra (known store.old) key).answer }
    ensures after { known store.new ≡ (queried_store_in K.Kind.algebra (known store.old) key).contents }
    ensures allowance { allowance_of store.new ≡ allowance_of store.old }
{
    tell::<D, _>(part, store.query(key))
}

// A page of the store, in the table.
pub(crate) fn page_store<D: Device, K: Kind>(
    part: Part,
    store: &mut Store<D, K>,
    low: u32,
    high: u32,
    table: &mut [Entry<u64>],
) -> Result<Page, Refusal>
    ensures value { result ≡ told part (paged_in K.Kind.algebra (known store.old) low high table.old).called.answer }
    ensures after { known store.new ≡ (paged_in K.Kind.algebra (known store.old) low high table.old).called.contents }
    ensures table { table.new ≡ (paged_in K.Kind.algebra (known store.old) low high table.old).table }
    ensures allowance { allowance_of store.new ≡ allowance_of store.old }
    ensures onward { IfOk result (λ p. (k : ℕ) → p.next ≡ Some k → (low < k) × (k ≤ high)) }
    ensures fits { IfOk result (λ p. (p.entries ≤ 2304) × (p.entries ≤ length table.old)) }
{
    tell::<D, _>(part, store.page(low, high, table))
}
