// A store that was opened: its device, its root in memory, and whether it is stopped. Clauses see it by `contents`, and not by a model: what a
// device holds is a function of a block's number, and the value of a model cannot hold one.
ghost use Rattle.std.specs.Prelude.{◌≡◌, ◌^◌, ◌<◌, ◌≤◌, None, vec_len};

use crate::workspace::Workspace;
use blocks::device::Device;
use plan::cause::Cause;
use std::marker::PhantomData;

pub struct Store<D: Device, K> {
    pub(crate) device: D,
    pub(crate) workspace: Workspace,
    // The height as figures give it: a fault within an update leaves the root in memory of no use.
    pub(crate) height: u8,
    // The first cause that stopped the store.
    pub(crate) stopped: Option<Cause<D::Fault>>,
    pub(crate) kind: PhantomData<K>,
    ghost root: { (stopped ≡ None → (0 < workspace.root.node.level) × (workspace.root.node.level ≤ 8) × (height ≡ workspace.root.node.level) × (vec_len workspace.root.node.messages ≤ 256)) },
    ghost span: { (stopped ≡ None → (workspace.root.node.span.low ≡ 0) × (workspace.root.node.span.high ≡ 2 ^ 32)) },
    ghost few: { (stopped ≡ None → workspace.root.updates ≤ 4294967296) },
}
