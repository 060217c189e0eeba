// Reading a child from its block, and writing a node to one.
ghost use Rattle.std.specs.Prelude.{◌≡◌, ◌+◌, ◌%◌, ◌^◌, ◌≤◌, true, is_ok};
ghost use Rattle.node_ops.specs.CodeOf.{code_of};
ghost use Rattle.nodes.specs.Roots.{root_block, view_root};
ghost use Rattle.nodes.specs.Shapes.{IsInner, MessagesFit};
ghost use Rattle.nodes.specs.Views.{view};
ghost use Rattle.plan.specs.Images.{save, load};
ghost use Rattle.plan.specs.Steps.{child_low, child_high, fetch_child};
ghost use Rattle.steps.specs.Outcomes.{allowance_of, image_of, outcome, SameAllowance, Spends};

use crate::progress::Progress;
use blocks::device::Device;
use messages::kind::Kind;
use node_ops::children::{Child, child_at};
use node_ops::node_block::{read_node, write_node};
use nodes::node::Node;
use nodes::root::Root;
use plan::cause::Cause;
use rules::limits::BLOCK_SIZE;
use rules::mark::Mark;

// Reads a block. A fault tells which.
pub fn read_block<D: Device>(
    device: &mut D,
    at: u32,
    block: &mut [u8; BLOCK_SIZE],
) -> Result<(), Cause<D::Fault>>
    ensures value { outcome D.Device result device.new (λ d _. d) ≡ load (image_of D.Device device.old) at }
    ensures bytes { is_ok result ≡ true → block.new ≡ (image_of D.Device device.old).bytes at }
    ensures allowance { SameAllowance D.Device device.old device.new }
{
    device
        .read(at, block)
        .map_err(|fault| Cause::Device { fault, block: at })
}

// Writes a block. A fault tells which.
fn write_block<D: Device>(
    device: &mut D,
    at: u32,
    block: &[u8; BLOCK_SIZE],
) -> Result<(), Cause<D::Fault>>
    requires { 1 ≤ allowance_of D.Device device.old }
    ensures value { outcome D.Device result device.new (λ d _. d) ≡ save (image_of D.Device device.old) at block.now }
    ensures lowered { Spends 1 D.Device device.old device.new }
{
    device
        .write(at, block)
        .map_err(|fault| Cause::Device { fault, block: at })
}

// Reads the child at place `j` of an inner node.
pub fn fetch_child<D: Device, K: Kind>(
    device: &mut D,
    block: &mut [u8; BLOCK_SIZE],
    next_free: u32,
    parent: &Node,
    j: usize,
    child: &mut Node,
) -> Result<(), Cause<D::Fault>>
    requires { IsInner parent.now }
    ensures value { outcome D.Device result device.new (λ d _. record { image = d; child = view child.new }) ≡ fetch_child (code_of K.Kind.algebra) (image_of D.Device device.old) next_free (view parent.now) j }
    ensures allowance { SameAllowance D.Device device.old device.new }
    ensures level { is_ok result ≡ true → child.new.level + 1 ≡ parent.now.level }
    ensures messages { is_ok result ≡ true → MessagesFit child.new }
    ensures span { is_ok result ≡ true → (child.new.span.low ≡ child_low (view parent.now) j) × (child.new.span.high ≡ child_high (view parent.now) j) }
{
    let Child { block: at, span } = child_at(parent, j);
    read_block(device, at, block)?;
    read_node::<K>(block, parent.level - 1, span, next_free, child).map_err(|rule| Cause::BadNode {
        block: at,
        rule,
    })
}

// Writes a node to the block `at`.
pub fn save_node<D: Device, K: Kind>(
    device: &mut D,
    block: &mut [u8; BLOCK_SIZE],
    at: u32,
    node: &Node,
) -> Result<(), Cause<D::Fault>>
    requires { 1 ≤ allowance_of D.Device device.old }
    ensures value { outcome D.Device result device.new (λ d _. d) ≡ save (image_of D.Device device.old) at ((code_of K.Kind.algebra).encode (view node.now)) }
    ensures lowered { Spends 1 D.Device device.old device.new }
{
    write_node::<K>(node, block);
    write_block(device, at, block)
}

// Writes a node to the block `at`, and counts it.
pub(crate) fn save_counted<D: Device, K: Kind>(
    device: &mut D,
    block: &mut [u8; BLOCK_SIZE],
    progress: &mut Progress,
    at: u32,
    node: &Node,
) -> Result<(), Cause<D::Fault>>
    requires { 1 ≤ allowance_of D.Device device.old }
    ensures value { outcome D.Device result device.new (λ d _. d) ≡ save (image_of D.Device device.old) at ((code_of K.Kind.algebra).encode (view node.now)) }
    ensures lowered { Spends 1 D.Device device.old device.new }
    ensures count { is_ok result ≡ true → progress.new.tree_writes ≡ (progress.old.tree_writes + 1) % 2 ^ 64 }
    ensures next { progress.new.next_free ≡ progress.old.next_free }
{
    save_node::<D, K>(device, block, at, node)?;
    progress.tree_writes = progress.tree_writes.wrapping_add(1);
    Ok(())
}

// Writes the root to block 0, under a mark.
pub fn save_root<D: Device>(
    device: &mut D,
    block: &mut [u8; BLOCK_SIZE],
    root: &Root,
    mark: Mark,
) -> Result<(), Cause<D::Fault>>
    requires { 1 ≤ allowance_of D.Device device.old }
    ensures value { outcome D.Device result device.new (λ d _. d) ≡ save (image_of D.Device device.old) 0 (root_block mark (view_root root.now)) }
    ensures lowered { Spends 1 D.Device device.old device.new }
{
    root.write(mark, block);
    write_block(device, 0, block)
}
