// Lost and damaged blocks, met by an update, a query or a page.
use crate::card::{Card, Trialed};
use crate::told::Told;
use blocks::faulty::Wear;
use blocks::state::State;
use messages::entry::Entry;
use messages::message::Message;
use std::io;
use steps::gathering::MOST_IN_PAGE;
use store::workspace::Workspace;
use trial_runs::cards::PLENTY;
use trial_runs::cost::close;
use trial_runs::order::Order;

// Which call to make: a table of constants cannot hold closures.
#[derive(Clone, Copy, PartialEq, Eq)]
enum Call {
    Update,
    Query,
    Page,
}

// After so many rising updates this block gets this state, and the call meets it.
#[derive(Clone, Copy)]
struct Trial(u32, u32, State, Call);

// At 272 updates the root is full, and the next one moves a batch to block 1. At 512 the next one splits that leaf, writes its lower half to
// block 1 again, and then its upper half to block 2.
const TRIALS: [Trial; 8] = [
    Trial(300, 1, State::Damaged, Call::Query),
    Trial(300, 1, State::Lost, Call::Query),
    Trial(300, 1, State::Damaged, Call::Page),
    Trial(272, 1, State::Damaged, Call::Update),
    Trial(272, 1, State::Lost, Call::Update),
    Trial(512, 2, State::Lost, Call::Update),
    Trial(512, 2, State::Damaged, Call::Update),
    Trial(300, 9, State::Lost, Call::Page),
];

// Calls a store that has had so many rising updates.
fn make_call(store: &mut Trialed<'_>, call: Call, updates: u32, table: &mut [Entry<u64>]) -> Told {
    match call {
        Call::Update => Told::Update(store.update(updates.wrapping_add(1), Message::Add(1))),
        Call::Query => Told::Query(store.query(1)),
        Call::Page => Told::Page(store.page(0, u32::MAX, table)),
    }
}

// How many entries of a table have a key.
fn keys_in(table: &[Entry<u64>]) -> usize {
    table.iter().filter(|entry| entry.key != 0).count()
}

// The call that meets the block, then an update and a query of its key, which stops at the root. The table holds sevens before.
fn try_block(rt: &(impl Print + AllocGlobal), card: &mut Card, trial: Trial) -> io::Result<()> {
    let Trial(updates, block, state, call) = trial;
    card.prepare(rt.alloc(), Order::Rising { from: 1 }, updates)?;
    let seven = Entry { key: 7, value: 7 };
    let mut table = vec![in rt.alloc(); seven; MOST_IN_PAGE]?;
    let workspace = Workspace::new(rt.alloc())?;
    let mut device = card.device(Wear::EveryWrite, PLENTY);
    device.set_state(block, state);
    let mut store = Trialed::open(device, workspace);
    let called = make_call(&mut store, call, updates, &mut table);
    let updated = Told::Update(store.update(5, Message::Put(9)));
    let asked = Told::Query(store.query(5));
    let cost = close(store);
    println!(rt; "block {block} is {state:?} after {updates} updates")?;
    println!(rt; "  {called}")?;
    if call == Call::Page {
        println!(rt; "  {} keys in the table", keys_in(&table))?;
    }
    println!(rt; "  {updated}")?;
    println!(rt; "  {asked}")?;
    let accepted = cost.figures.updates;
    println!(rt;
        "  {accepted} updates, {} writes since opening",
        cost.writes
    )
}

pub fn try_bad_blocks(rt: &(impl Print + AllocGlobal), card: &mut Card) -> io::Result<()> {
    for trial in &TRIALS {
        try_block(rt, card, *trial)?;
    }
    Ok(())
}
