// Opening a store on a device, and closing it.
ghost use Rattle.std.specs.Prelude.{◌≡◌, ◌+◌, ◌<◌, ◌≤◌, true, is_ok, vec_len};
ghost use Rattle.nodes.specs.Roots.{view_root};
ghost use Rattle.plan.specs.Images.{image};
ghost use Rattle.store.specs.Views.{contents};
ghost use Rattle.store_laws.specs.LaidOut.{OpenLaidOut, FiguresLaidOut, CloseLaidOut};
ghost use Rattle.store_plan.specs.Openings.{loaded, opened, opening, closed};
ghost use Rattle.steps.specs.Outcomes.{image_of, allowance_of, outcome, SameAllowance, Spends};
ghost use Rattle.nodes.specs.Shapes.{IsSoundRoot, HasAllKeys};

use crate::store::Store;
use crate::workspace::Workspace;
use blocks::device::Device;
use messages::kind::Kind;
use plan::cause::Cause;
use plan::refusal::StoreRefusal;
use rules::mark::Mark;
use std::marker::PhantomData;
use steps::access::{read_block, save_root};
use store_plan::figures::Figures;

// Takes over the root of block 0, and gives its mark.
fn load_root<D: Device>(device: &mut D, workspace: &mut Workspace) -> Result<Mark, Cause<D::Fault>>
    ensures value { outcome D.Device result device.new (λ d mark. record { image = d; root = view_root workspace.new.root; mark = mark }) ≡ loaded (image_of D.Device device.old) }
    ensures allowance { SameAllowance D.Device device.old device.new }
    ensures limits { is_ok result ≡ true → IsSoundRoot workspace.new.root }
    ensures span { is_ok result ≡ true → HasAllKeys workspace.new.root }
{
    let size = device.size();
    let block = &mut workspace.bench.scratch.block;
    read_block(device, 0, block)?;
    // By `?` and `Ok`: as a last expression, `map_err` left the proof open.
    let mark = workspace
        .root
        .read(size, block)
        .map_err(|rule| Cause::BadNode { block: 0, rule })?;
    Ok(mark)
}

// Takes over the root of block 0, and writes it there as in use.
fn take_root<D: Device, K: Kind>(
    device: &mut D,
    workspace: &mut Workspace,
) -> Result<(), Cause<D::Fault>>
    ensures value { outcome D.Device result device.new (λ d _. record { image = d; root = view_root workspace.new.root }) ≡ opened K.Kind.algebra (image_of D.Device device.old) (allowance_of D.Device device.old) }
    ensures lowered { Spends 1 D.Device device.old device.new }
    ensures limits { is_ok result ≡ true → IsSoundRoot workspace.new.root }
    ensures span { is_ok result ≡ true → HasAllKeys workspace.new.root }
{
    if device.size() == 0 {
        return Err(StoreRefusal::NoSuchBlock.into());
    }
    if device.allowance() < 2 {
        return Err(StoreRefusal::Spent.into());
    }
    let mark = load_root(device, workspace)?;
    if workspace.root.kind != K::number() {
        return Err(StoreRefusal::WrongKind.into());
    }
    if mark == Mark::InUse {
        return Err(StoreRefusal::NotClosed.into());
    }
    save_root(
        device,
        &mut workspace.bench.scratch.block,
        &workspace.root,
        Mark::InUse,
    )
}

impl<D: Device, K: Kind> Store<D, K> {
    // The body of opening.
    fn take_over(mut device: D, mut workspace: Workspace) -> Store<D, K>
        ensures value { contents D.Device result ≡ opening (opened K.Kind.algebra (image_of D.Device device) (allowance_of D.Device device)) }
        ensures lowered { Spends 1 D.Device device result.device }
    {
        match take_root::<D, K>(&mut device, &mut workspace) {
            Ok(()) => Store {
                height: workspace.root.node.level,
                stopped: None,
                kind: PhantomData,
                device,
                workspace,
            },
            Err(cause) => {
                workspace.root.updates = 0;
                workspace.root.tree_writes = 0;
                Store {
                    height: 0,
                    stopped: Some(cause),
                    kind: PhantomData,
                    device,
                    workspace,
                }
            }
        }
    }

    // Opens the store of a device. A refused opening writes nothing and makes a stopped store.
    pub fn open(device: D, workspace: Workspace) -> Store<D, K>
        ensures value { contents D.Device result ≡ opening (opened K.Kind.algebra (image_of D.Device device) (allowance_of D.Device device)) }
        ensures lowered { Spends 1 D.Device device result.device }
        ensures laid_out { OpenLaidOut K.Kind.algebra (image_of D.Device device) (allowance_of D.Device device) (contents D.Device result) }
    {
        Store::take_over(device, workspace)
    }

    // The updates that the store has accepted, its height and its tree writes; zeros if opening was refused.
    pub fn figures(&self) -> Figures
        ensures value { result ≡ (contents D.Device self.now).figures }
        ensures laid_out { FiguresLaidOut K.Kind.algebra (contents D.Device self.now) result }
    {
        Figures {
            updates: self.workspace.root.updates,
            height: self.height,
            tree_writes: self.workspace.root.tree_writes,
        }
    }

    // The body of closing.
    fn hand_back(self) -> (D, Workspace)
        ensures value { image_of D.Device result.0 ≡ closed (image_of D.Device self.device) (contents D.Device self).root (allowance_of D.Device self.device) }
        ensures lowered { Spends 1 D.Device self.device result.0 }
    {
        let Store {
            mut device,
            mut workspace,
            height: _,
            stopped,
            kind: _,
        } = self;
        if stopped.is_some() {
            return (device, workspace);
        }
        if device.allowance() == 0 {
            return (device, workspace);
        }
        // Closing is not refused: where the device refuses the write, block 0 says that the store is in use.
        let block = &mut workspace.bench.scratch.block;
        let _ = save_root(&mut device, block, &workspace.root, Mark::Closed);
        (device, workspace)
    }

    // Hands back the device and the workspace. An open store writes its root to block 0 as closed first.
    pub fn close(self) -> (D, Workspace)
        ensures value { image_of D.Device result.0 ≡ closed (image_of D.Device self.device) (contents D.Device self).root (allowance_of D.Device self.device) }
        ensures lowered { Spends 1 D.Device self.device result.0 }
        ensures laid_out { CloseLaidOut K.Kind.algebra (contents D.Device self) (allowance_of D.Device self.device) (image_of D.Device result.0) }
    {
        self.hand_back()
    }
}
