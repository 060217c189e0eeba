// Messages that come to a node: one at the root, a batch from a parent to its child.
ghost use Rattle.std.specs.Prelude.{◌≡◌, ◌+◌, ◌<◌, ◌≤◌, length, vec_len, vec_capacity};
ghost use Rattle.messages.specs.Lists.{joins, acts_in, pending, batch as batch_of};
ghost use Rattle.nodes.specs.Shapes.{IsInner, MessagesFit, RecordsLeaveRoom, SameShape};
ghost use Rattle.nodes.specs.Views.{view};
ghost use Rattle.tree.specs.Operations.{with_message, with_new_child, without_batch, absorb};

use messages::entry::Entry;
use messages::kind::Kind;
use messages::list::{MOST_MOVING, apply_message, join_message, take_batch};
use messages::message::Message;
use nodes::node::Node;
use rules::limits::{MOST_CHILDREN, MOST_MESSAGES};

// Lets a message join an inner node's messages. There is room for it.
pub fn join<K: Kind>(node: &mut Node, arriving: Entry<Message>)
    requires inner { IsInner node.old }
    requires room { vec_len node.old.messages < MOST_MESSAGES }
    ensures value { view node.new ≡ with_message K.algebra arriving.key arriving.value (view node.old) }
    ensures shape { SameShape node.old node.new }
    ensures messages { vec_len node.new.messages ≤ vec_len node.old.messages + 1 }
    ensures span { node.new.span ≡ node.old.span }
{
    join_message::<K>(&mut node.messages, arriving);
}

// Lets messages join a node's messages, one after another.
pub fn join_all<K: Kind>(messages: &mut Vec<Entry<Message>>, arriving: &[Entry<Message>])
    requires { vec_len messages.old + length arriving.now ≤ vec_capacity messages.old }
    ensures items { messages.new.items ≡ joins K.algebra messages.old.items arriving.now }
    ensures bound { vec_len messages.new ≤ vec_len messages.old + length arriving.now }
    ensures capacity { vec_capacity messages.new ≡ vec_capacity messages.old }
{
    for message in arriving {
        join_message::<K>(messages, *message);
    }
}

// Lets messages act on a leaf's records, one after another.
pub fn apply_all<K: Kind>(records: &mut Vec<Entry<u64>>, arriving: &[Entry<Message>])
    requires { vec_len records.old + length arriving.now ≤ vec_capacity records.old }
    ensures items { records.new.items ≡ acts_in K.algebra records.old.items arriving.now }
    ensures bound { vec_len records.new ≤ vec_len records.old + length arriving.now }
    ensures capacity { vec_capacity records.new ≡ vec_capacity records.old }
{
    for message in arriving {
        apply_message::<K>(records, *message);
    }
}

// A node takes messages: a leaf's records are acted on, an inner node's messages are joined.
pub fn absorb_all<K: Kind>(node: &mut Node, arriving: &[Entry<Message>])
    requires few { length arriving.now ≤ MOST_MOVING }
    requires messages { MessagesFit node.old }
    requires records { RecordsLeaveRoom node.old }
    ensures value { view node.new ≡ absorb K.algebra arriving.now (view node.old) }
    ensures shape { SameShape node.old node.new }
{
    if node.level == 0 {
        apply_all::<K>(&mut node.records, arriving);
    } else {
        join_all::<K>(&mut node.messages, arriving);
    }
}

// The batch of smallest keys that is pending for a child moves down to it, by way of `batch`.
pub fn move_batch<K: Kind>(parent: &mut Node, child: &mut Node, batch: &mut Vec<Entry<Message>>)
    requires room { MOST_MOVING ≤ vec_capacity batch.old }
    requires inner { IsInner parent.old }
    requires messages { MessagesFit child.old }
    requires records { RecordsLeaveRoom child.old }
    ensures parent { view parent.new ≡ without_batch child.old.span.low child.old.span.high (view parent.old) }
    ensures child { view child.new ≡ absorb K.algebra (batch_of child.old.span.low child.old.span.high parent.old.messages.items) (view child.old) }
    ensures parent_shape { SameShape parent.old parent.new }
    ensures child_shape { SameShape child.old child.new }
    ensures fewer { 0 < pending child.old.span.low child.old.span.high parent.old.messages.items → vec_len parent.new.messages < vec_len parent.old.messages }
    ensures span { parent.new.span ≡ parent.old.span }
    ensures room { MOST_MOVING ≤ vec_capacity batch.new }
{
    batch.clear();
    take_batch(&mut parent.messages, child.span, batch);
    absorb_all::<K>(child, batch);
}

// A new child in block `block`, with the keys from `key` on, comes in behind the child at place `j`.
pub fn add_child(node: &mut Node, j: usize, key: u32, block: u32)
    requires inner { IsInner node.old }
    requires room { vec_len node.old.children < MOST_CHILDREN }
    requires within { j < vec_len node.old.children }
    ensures value { view node.new ≡ with_new_child j key block (view node.old) }
    ensures level { node.new.level ≡ node.old.level }
    ensures children { vec_len node.new.children ≡ vec_len node.old.children + 1 }
    ensures pivots { vec_len node.new.pivots ≡ vec_len node.old.pivots + 1 }
    ensures span { node.new.span ≡ node.old.span }
    ensures messages { node.new.messages ≡ node.old.messages }
{
    node.pivots.insert(j, key).unwrap();
    node.children.insert(j + 1, block).unwrap();
}
