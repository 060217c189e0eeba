// What a page gathers on its way down, and the page itself.
ghost use Rattle.std.specs.Prelude.{◌≡◌, ℕ, ◌+◌, ◌<◌, ◌≤◌, [], Some, None, IfOk, if◌then◌else◌, nat_lt, vec_capacity, vec_len};
ghost use Rattle.nodes.specs.Views.{view};
ghost use Rattle.plan.specs.Images.{Image};
ghost use Rattle.plan.specs.Pages.{gathered as gathered_from, leaf_paged, page_end};
ghost use Rattle.steps.specs.Outcomes.{paged};
ghost use Rattle.store_plan.specs.Pages.{GoesOn};

use messages::entry::Entry;
use messages::kind::Kind;
use messages::message::Message;
use node_ops::paging::{gather, page_of_leaf, page_span};
use nodes::node::Node;
use std::alloc::{AllocError, Global};
use store_plan::page::Page;

// 256 messages of each of 8 levels, and 256 records of a leaf.
pub const MOST_GATHERED: usize = 2048;

pub const MOST_IN_PAGE: usize = 2304;

#[derive(Drop)]
pub struct Gathering {
    // The messages met on the way down, each folded with the newer ones on its key.
    pub gathered: Vec<Entry<Message>>,
    // What is gathered next, before it takes the place of `gathered`.
    pub spare: Vec<Entry<Message>>,
    // The entries of the page.
    pub entries: Vec<Entry<u64>>,
    ghost room: { (2048 ≤ vec_capacity gathered) × (2048 ≤ vec_capacity spare) × (2304 ≤ vec_capacity entries) },
}

// The first key past a leaf's span, if that is at most `last`.
fn key_past(leaf: &Node, last: u32) -> Option<u32>
    ensures { result ≡ (if nat_lt last leaf.now.span.high then None else Some leaf.now.span.high) }
{
    if u64::from(last) < leaf.span.high {
        None
    } else {
        Some(leaf.span.high as u32)
    }
}

impl Gathering {
    // Nothing is gathered yet. Only here may memory be short.
    pub fn new(heap: Global) -> Result<Gathering, AllocError>
        ensures gathered { IfOk result (λ g. g.gathered.items ≡ []) }
        ensures spare { IfOk result (λ g. g.spare.items ≡ []) }
        ensures entries { IfOk result (λ g. g.entries.items ≡ []) }
    {
        Ok(Gathering {
            gathered: Vec::with_capacity(heap, MOST_GATHERED)?,
            spare: Vec::with_capacity(heap, MOST_GATHERED)?,
            entries: Vec::with_capacity(heap, MOST_IN_PAGE)?,
        })
    }

    // Gathers what `parent` has for its child, from `first` up to and with `last`.
    pub(crate) fn gather<K: Kind>(&mut self, parent: &Node, child: &Node, first: u32, last: u32)
        requires { vec_len parent.now.messages + vec_len self.old.gathered ≤ 2048 }
        ensures items { self.new.gathered.items ≡ gathered_from K.algebra first (page_end last (view child.now)) (view parent.now) self.old.gathered.items }
        ensures bound { vec_len self.new.gathered ≤ vec_len parent.now.messages + vec_len self.old.gathered }
    {
        gather::<K>(
            parent,
            page_span(first, last, child),
            &mut self.gathered,
            &mut self.spare,
        );
    }

    // The page at its leaf, once the gathered messages act on the records.
    pub(crate) fn end_page<K: Kind>(
        &mut self,
        leaf: &Node,
        first: u32,
        last: u32,
        reads: u32,
    ) -> Page
        requires room { vec_len self.old.gathered ≤ 2048 }
        requires within { first < leaf.now.span.high }
        ensures value { (d : Image) → paged self.new.entries.items d result ≡ leaf_paged K.algebra d (view leaf.now) first last self.old.gathered.items reads }
        ensures count { result.entries ≡ vec_len self.new.entries }
        ensures fits { result.entries ≤ 2304 }
        ensures onward { GoesOn first last result }
    {
        page_of_leaf::<K>(
            leaf,
            page_span(first, last, leaf),
            &self.gathered,
            &mut self.entries,
        );
        Page {
            entries: self.entries.len(),
            reads,
            next: key_past(leaf, last),
        }
    }
}
