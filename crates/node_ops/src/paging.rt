// What a page takes of the nodes on its way: runs of entries between two keys, and the messages gathered so far.
ghost use Rattle.std.specs.Prelude.{◌≡◌, ◌+◌, ◌<◌, ◌≤◌, length, drop, vec_len, vec_capacity};
ghost use Rattle.messages.specs.Lists.{acts_in, below};
ghost use Rattle.nodes.specs.Views.{view};
ghost use Rattle.plan.specs.Pages.{gathered as gathered_from, page_end};
ghost use Rattle.tree.specs.Query.{slice};

use crate::moves::{apply_all, join_all};
use messages::entry::Entry;
use messages::kind::Kind;
use messages::list::place_of;
use messages::message::Message;
use messages::span::Span;
use nodes::node::Node;
use rules::limits::MOST_ENTRIES;
use std::ops::Range;

// The keys of a page from `first` up to and with `last`, as far as the node's span goes.
pub fn page_span(first: u32, last: u32, node: &Node) -> Span
    ensures low { result.low ≡ first }
    ensures high { result.high ≡ page_end last (view node.now) }
{
    Span {
        low: first,
        high: (u64::from(last) + 1).min(node.span.high),
    }
}

// The places of the entries of a span.
fn places<V>(entries: &[Entry<V>], span: Span) -> Range<usize>
    ensures start { result.start ≡ below span.low entries.now }
    ensures end { result.end ≡ result.start + below span.high (drop result.start entries.now) }
    ensures within { result.end ≤ length entries.now }
{
    let start = place_of(entries, u64::from(span.low));
    start..start + place_of(&entries[start..], span.high)
}

// The entries of a span.
fn between<V>(entries: &[Entry<V>], span: Span) -> &[Entry<V>]
    ensures items { result.now ≡ slice span.low span.high entries.now }
    ensures few { length result.now ≤ length entries.now }
{
    &entries[places(entries, span)]
}

// Keeps the entries of a span. They alone are moved: `drain` would turn round all that stands before them too.
fn keep_between<V: Copy>(entries: &mut Vec<Entry<V>>, span: Span)
    ensures items { entries.new.items ≡ slice span.low span.high entries.old.items }
    ensures few { vec_len entries.new ≤ vec_len entries.old }
    ensures capacity { vec_capacity entries.new ≡ vec_capacity entries.old }
{
    let kept = places(entries, span);
    let count = kept.end - kept.start;
    entries.copy_within(kept, 0);
    entries.truncate(count);
}

// Gathers an inner node's messages of a span, older than those gathered above it, by way of `spare`.
pub fn gather<K: Kind>(
    node: &Node,
    span: Span,
    gathered: &mut Vec<Entry<Message>>,
    spare: &mut Vec<Entry<Message>>,
)
    requires { vec_len node.now.messages + vec_len gathered.old ≤ vec_capacity spare.old }
    ensures items { gathered.new.items ≡ gathered_from K.algebra span.low span.high (view node.now) gathered.old.items }
    ensures bound { vec_len gathered.new ≤ vec_len node.now.messages + vec_len gathered.old }
    ensures gathered_room { vec_capacity spare.old ≤ vec_capacity gathered.new }
    ensures spare_room { vec_capacity gathered.old ≤ vec_capacity spare.new }
{
    spare.clear();
    spare
        .extend_from_slice(between(&node.messages, span))
        .unwrap();
    join_all::<K>(spare, &gathered[..place_of(gathered, span.high)]);
    std::mem::swap(gathered, spare);
}

// The entries of a page with the keys of a span: a leaf's records once the gathered messages acted on them.
pub fn page_of_leaf<K: Kind>(
    leaf: &Node,
    span: Span,
    gathered: &[Entry<Message>],
    entries: &mut Vec<Entry<u64>>,
)
    requires { MOST_ENTRIES + length gathered.now ≤ vec_capacity entries.old }
    ensures items { entries.new.items ≡ slice span.low span.high (acts_in K.algebra (view leaf.now).records gathered.now) }
    ensures few { vec_len entries.new ≤ MOST_ENTRIES + length gathered.now }
    ensures room { vec_capacity entries.old ≤ vec_capacity entries.new }
{
    entries.clear();
    entries.extend_from_slice(&leaf.records).unwrap();
    apply_all::<K>(entries, gathered);
    keep_between(entries, span);
}
