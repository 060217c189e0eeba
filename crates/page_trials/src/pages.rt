// All that a store holds, page by page.
use blocks::device::Device;
use messages::entry::Entry;
use messages::kind::Kind;
use std::fmt;
use store::store::Store;
use store_plan::page::Page;
use trial_runs::digest::{NO_DIGEST, mix};

// What the pages had in all.
#[derive(Clone, Copy)]
pub struct Tally {
    pub pages: u64,
    pub entries: u64,
    pub reads: u64,
    // The FNV-1a digest of each key and word, in their order.
    pub digest: u64,
}

impl Tally {
    // No page was read.
    fn new() -> Tally {
        Tally {
            pages: 0,
            entries: 0,
            reads: 0,
            digest: NO_DIGEST,
        }
    }

    fn add(&mut self, page: Page, entries: &[Entry<u64>]) {
        self.pages = self.pages.wrapping_add(1);
        self.entries = self.entries.wrapping_add(page.entries as u64);
        self.reads = self.reads.wrapping_add(u64::from(page.reads));
        self.digest = entries.iter().fold(self.digest, |sum, entry| {
            mix(mix(sum, u64::from(entry.key)), entry.value)
        });
    }
}

impl fmt::Display for Tally {
    fn fmt<W: fmt::Write>(&self, f: &mut fmt::Formatter<W>) -> fmt::Result {
        let Tally {
            pages,
            entries,
            reads,
            digest,
        } = *self;
        write!(
            f,
            "pages {pages}, entries {entries}, reads {reads}, digest {digest:016x}"
        )
    }
}

// Each page begins at the key that the one before gives.
pub fn read_all<D: Device, K: Kind>(store: &mut Store<D, K>, table: &mut [Entry<u64>]) -> Tally {
    let mut tally = Tally::new();
    let mut next = Some(0);
    while let Some(low) = next {
        let Ok(page) = store.page(low, u32::MAX, table) else {
            return tally;
        };
        tally.add(page, &table[..page.entries]);
        next = page.next;
    }
    tally
}
