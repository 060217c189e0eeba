// One step: the child with most pending messages is read, split if it is full, and takes a batch.
ghost use Rattle.std.specs.Prelude.{◌≡◌, ◌+◌, ◌<◌, ◌≤◌, true, is_ok, vec_len};
ghost use Rattle.messages.specs.Lists.{pending};
ghost use Rattle.node_ops.specs.CodeOf.{code_of};
ghost use Rattle.node_ops.specs.Spans.{SpansAllKeys};
ghost use Rattle.nodes.specs.Shapes.{ChildrenLeaveRoom, IsInner, RecordsLeaveRoom};
ghost use Rattle.nodes.specs.Views.{view};
ghost use Rattle.plan.specs.Steps.{child_block, split_if_full, step};
ghost use Rattle.steps.specs.Allowances.{Spent};
ghost use Rattle.steps.specs.Outcomes.{allowance_of, image_of, outcome, Spends};

use crate::access::{fetch_child, save_counted};
use crate::progress::Progress;
use crate::scratch::Scratch;
use blocks::device::Device;
use messages::kind::Kind;
use node_ops::children::{busiest_child, child_at};
use node_ops::moves::{add_child, move_batch};
use node_ops::pending::upper_has_more;
use nodes::node::Node;
use plan::cause::Cause;
use rules::limits::MOST_CHILDREN;
use splits::full::{is_full, split};

// Splits the child at place `j` of `parent` if it is full. The half with more pending messages is in `child`
// afterwards, and the other is written; gives the block of the half that goes on.
fn split_full_child<D: Device, K: Kind>(
    device: &mut D,
    scratch: &mut Scratch,
    progress: &mut Progress,
    parent: &mut Node,
    j: usize,
    child: &mut Node,
) -> Result<u32, Cause<D::Fault>>
    requires allowance { 1 ≤ allowance_of D.Device device.old }
    requires inner { IsInner parent.old }
    requires room { vec_len parent.old.children < MOST_CHILDREN }
    requires place { j < vec_len parent.old.children }
    requires block { progress.old.next_free < 65536 }
    ensures value { outcome D.Device result device.new (λ d to. record { image = d; next = progress.new.next_free; writes = progress.new.tree_writes; parent = view parent.new; child = view child.new; block = to }) ≡ split_if_full (code_of K.Kind.algebra) (image_of D.Device device.old) progress.old.next_free progress.old.tree_writes (view parent.old) j (view child.old) (child_block (view parent.old) j) }
    ensures lowered { Spends 1 D.Device device.old device.new }
    ensures spent { is_ok result ≡ true → Spent 1 progress.old.tree_writes progress.new.tree_writes (allowance_of D.Device device.old) (allowance_of D.Device device.new) }
    ensures child_level { is_ok result ≡ true → child.new.level ≡ child.old.level }
    ensures messages { is_ok result ≡ true → vec_len child.new.messages ≤ vec_len child.old.messages }
    ensures leaf { is_ok result ≡ true → RecordsLeaveRoom child.new }
    ensures inner { is_ok result ≡ true → ChildrenLeaveRoom child.new }
    ensures level { parent.new.level ≡ parent.old.level }
    ensures next { progress.new.next_free ≤ progress.old.next_free + 1 }
    ensures span { parent.new.span ≡ parent.old.span }
    ensures same { parent.new.messages ≡ parent.old.messages }
    ensures some { is_ok result ≡ true → 0 < pending child.old.span.low child.old.span.high parent.old.messages.items → 0 < pending child.new.span.low child.new.span.high parent.old.messages.items }
{
    let at = child_at(parent, j).block;
    if !is_full(child) {
        return Ok(at);
    }
    let fresh = progress.next_free;
    let key = split(child, &mut scratch.other);
    let upper_goes_on = upper_has_more(parent, child.span, scratch.other.span);
    add_child(parent, j, key, fresh);
    progress.next_free = fresh + 1;
    if upper_goes_on {
        save_counted::<D, K>(device, &mut scratch.block, progress, at, child)?;
        std::mem::swap(child, &mut scratch.other);
        return Ok(fresh);
    }
    save_counted::<D, K>(device, &mut scratch.block, progress, fresh, &scratch.other)?;
    Ok(at)
}

// Makes a step from `parent`. No method of a bench: the parent is the root or `here`, the child `here` or `beside`. The child that took the batch is in `child` afterwards; gives its block.
pub fn make_step<D: Device, K: Kind>(
    device: &mut D,
    scratch: &mut Scratch,
    progress: &mut Progress,
    parent: &mut Node,
    child: &mut Node,
) -> Result<u32, Cause<D::Fault>>
    requires allowance { 1 ≤ allowance_of D.Device device.old }
    requires inner { IsInner parent.old }
    requires room { vec_len parent.old.children < MOST_CHILDREN }
    requires block { progress.old.next_free < 65536 }
    ensures value { outcome D.Device result device.new (λ d to. record { image = d; next = progress.new.next_free; writes = progress.new.tree_writes; parent = view parent.new; child = view child.new; block = to }) ≡ step (code_of K.Kind.algebra) (image_of D.Device device.old) progress.old.next_free progress.old.tree_writes (view parent.old) }
    ensures lowered { Spends 1 D.Device device.old device.new }
    ensures spent { is_ok result ≡ true → Spent 1 progress.old.tree_writes progress.new.tree_writes (allowance_of D.Device device.old) (allowance_of D.Device device.new) }
    ensures inner { is_ok result ≡ true → ChildrenLeaveRoom child.new }
    ensures level { is_ok result ≡ true → child.new.level + 1 ≡ parent.old.level }
    ensures parent { parent.new.level ≡ parent.old.level }
    ensures next { progress.new.next_free ≤ progress.old.next_free + 1 }
    ensures span { parent.new.span ≡ parent.old.span }
    ensures fewer { is_ok result ≡ true → SpansAllKeys (view parent.old) → 0 < vec_len parent.old.messages → vec_len parent.new.messages < vec_len parent.old.messages }
{
    let j = busiest_child(parent);
    fetch_child::<D, K>(
        device,
        &mut scratch.block,
        progress.next_free,
        parent,
        j,
        child,
    )?;
    let to = split_full_child::<D, K>(device, scratch, progress, parent, j, child)?;
    move_batch::<K>(parent, child, &mut scratch.batch);
    Ok(to)
}
