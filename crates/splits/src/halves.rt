// The two halves of a node that is full.
ghost use Rattle.std.specs.Prelude.{◌≡◌, ◌+◌, ◌*◌, ◌<◌, ◌≤◌, length, vec_len, slice_index};
ghost use Rattle.nodes.specs.Shapes.{IsInner};
ghost use Rattle.nodes.specs.Views.{view};
ghost use Rattle.tree.specs.Operations.{lower_inner, upper_inner, lower_leaf, upper_leaf, half_length, key_at};

use crate::tail::move_tail;
use messages::list::place_of;
use messages::span::Span;
use nodes::node::Node;
use rules::limits::{LEAST_CHILDREN, MOST_CHILDREN};

// Of 8 children the first 4 stay, with the pivots between them.
const KEPT_CHILDREN: usize = LEAST_CHILDREN as usize;

const KEPT_PIVOTS: usize = KEPT_CHILDREN - 1;

// Splits an inner node of 8 children at its fourth pivot, which it gives: the first 4 children and the messages below the pivot stay,
// the others go to `upper`.
pub fn split_inner(node: &mut Node, upper: &mut Node) -> u32
    requires inner { IsInner node.old }
    requires full { vec_len node.old.children ≡ MOST_CHILDREN }
    ensures pivot { result ≡ slice_index node.old.pivots.items 3 }
    ensures lower { view node.new ≡ lower_inner 3 (view node.old) }
    ensures upper { view upper.new ≡ upper_inner 3 (view node.old) }
    ensures levels { (node.new.level ≡ node.old.level) × (upper.new.level ≡ node.old.level) }
    ensures children { (vec_len node.new.children ≡ 4) × (vec_len upper.new.children ≡ 4) }
    ensures messages { vec_len node.new.messages + vec_len upper.new.messages ≡ vec_len node.old.messages }
{
    let pivot = node.pivots[KEPT_PIVOTS];
    let place = place_of(&node.messages, u64::from(pivot));
    upper.level = node.level;
    upper.span = Span {
        low: pivot,
        high: node.span.high,
    };
    move_tail(&mut node.pivots, KEPT_CHILDREN, &mut upper.pivots);
    node.pivots.truncate(KEPT_PIVOTS);
    move_tail(&mut node.children, KEPT_CHILDREN, &mut upper.children);
    move_tail(&mut node.messages, place, &mut upper.messages);
    upper.records.clear();
    node.span.high = u64::from(pivot);
    pivot
}

// Splits a leaf of at least 2 records in the middle and gives the first key of the upper half, which goes to `upper`; the odd record stays.
pub fn split_leaf(node: &mut Node, upper: &mut Node) -> u32
    requires leaf { node.old.level ≡ 0 }
    requires two { 2 ≤ vec_len node.old.records }
    ensures key { result ≡ key_at (half_length node.old.records.items) node.old.records.items }
    ensures lower { view node.new ≡ lower_leaf (half_length node.old.records.items) (view node.old) }
    ensures upper { view upper.new ≡ upper_leaf (half_length node.old.records.items) (view node.old) }
    ensures levels { (node.new.level ≡ 0) × (upper.new.level ≡ 0) }
    ensures records { vec_len node.new.records + vec_len upper.new.records ≡ vec_len node.old.records }
    ensures lower_half { vec_len node.new.records * 2 ≤ vec_len node.old.records + 1 }
    ensures upper_half { vec_len upper.new.records * 2 ≤ vec_len node.old.records }
{
    let half = node.records.len().div_ceil(2);
    let key = node.records[half].key;
    upper.make_leaf(Span {
        low: key,
        high: node.span.high,
    });
    move_tail(&mut node.records, half, &mut upper.records);
    node.span.high = u64::from(key);
    key
}
